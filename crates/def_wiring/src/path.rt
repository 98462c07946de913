//! A path of wiring, in words of the text.
ghost use Rattle.std.specs.Prelude.{◌≡◌, Some, None};
ghost use Rattle.def_wiring.specs.Path.{no_path, last_x, last_y, coordinate, point_of, path_by};

use crate::act::Act;
use crate::label::Label;
use crate::sort::Sort;

/// A point of a path: its coordinates and its lengthening, if it has one.
#[derive(Debug, Drop)]
pub(crate) struct Point<'a> {
    pub(crate) x: Label<'a>,
    pub(crate) y: Label<'a>,
    pub(crate) reach: Option<Label<'a>>,
}

/// The path that is open.
#[derive(Debug, Drop)]
pub(crate) struct Path<'a> {
    pub(crate) layer: Label<'a>,
    pub(crate) width: Label<'a>,
    /// The sort of the word after SHAPE.
    pub(crate) shape: Sort,
    /// The last point that is whole.
    pub(crate) last: Option<Point<'a>>,
    /// The words of the point that is open.
    pub(crate) x: Label<'a>,
    pub(crate) y: Label<'a>,
    pub(crate) reach: Option<Label<'a>>,
}

/// The first coordinate of the last point.
pub(crate) fn last_x<'a>(last: &Option<Point<'a>>) -> Label<'a>
    ensures { result ≡ last_x last.now }
{
    match last {
        Some(point) => point.x.copy(),
        None => Label::new(b""),
    }
}

/// Its second coordinate.
pub(crate) fn last_y<'a>(last: &Option<Point<'a>>) -> Label<'a>
    ensures { result ≡ last_y last.now }
{
    match last {
        Some(point) => point.y.copy(),
        None => Label::new(b""),
    }
}

/// A coordinate, where `*` repeats the one of the path's last point.
pub(crate) fn coordinate<'a>(sort: Sort, last: Label<'a>, text: &'a [u8]) -> Label<'a>
    ensures { result ≡ coordinate sort last.entry text.now }
{
    match sort {
        Sort::Star => last,
        _ => Label::new(text),
    }
}

fn copy_of<'a>(label: &Option<Label<'a>>) -> Option<Label<'a>>
    ensures { result ≡ label.now }
{
    match label {
        Some(label) => Some(label.copy()),
        None => None,
    }
}

impl<'a> Path<'a> {
    pub(crate) fn new() -> Path<'a>
        ensures { result ≡ no_path }
    {
        Path {
            layer: Label::new(b""),
            width: Label::new(b""),
            shape: Sort::Other,
            last: None,
            x: Label::new(b""),
            y: Label::new(b""),
            reach: None,
        }
    }

    /// The first coordinate of the point that is open, told by this word.
    pub(crate) fn x_of(&self, sort: Sort, text: &'a [u8]) -> Label<'a>
        ensures { result ≡ coordinate sort (last_x self.now.last) text.now }
    {
        coordinate(sort, last_x(&self.last), text)
    }

    /// Its second one.
    pub(crate) fn y_of(&self, sort: Sort, text: &'a [u8]) -> Label<'a>
        ensures { result ≡ coordinate sort (last_y self.now.last) text.now }
    {
        coordinate(sort, last_y(&self.last), text)
    }

    /// The point that is open.
    pub(crate) fn point(&self) -> Point<'a>
        ensures { result ≡ point_of self.now }
    {
        Point {
            x: self.x.copy(),
            y: self.y.copy(),
            reach: copy_of(&self.reach),
        }
    }

    /// Begins on this layer.
    fn begin(&mut self, text: &'a [u8])
        ensures { self.new ≡ path_by Act.Layer Sort.Other text.now self.old }
    {
        self.layer = Label::new(text);
        self.width = Label::new(b"");
        self.shape = Sort::Other;
        self.last = None;
    }

    /// Begins a point.
    fn begin_point(&mut self, sort: Sort, text: &'a [u8])
        ensures { self.new ≡ path_by Act.X sort text.now self.old }
    {
        self.x = self.x_of(sort, text);
        self.reach = None;
    }

    /// Goes on to where a word leads that does this.
    pub(crate) fn go_on(&mut self, act: Act, sort: Sort, text: &'a [u8])
        ensures { self.new ≡ path_by act sort text.now self.old }
    {
        match act {
            Act::Layer => self.begin(text),
            Act::Width => self.width = Label::new(text),
            Act::Shape => self.shape = sort,
            Act::X => self.begin_point(sort, text),
            Act::Y => self.y = self.y_of(sort, text),
            Act::Reach => self.reach = Some(Label::new(text)),
            Act::Point => self.last = Some(self.point()),
            _ => {}
        }
    }
}
