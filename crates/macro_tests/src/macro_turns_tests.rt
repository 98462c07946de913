//! A macro of 2 by 1.4 micrometres at 2000 units, at ( 10000 0 ).
use crate::same::{same, same_at};
use geom_rect::{Orient, Rect};
use macro_turns::*;
use std::process::Abort;

fn rect(x1: i64, y1: i64, x2: i64, y2: i64) -> Rect {
    Rect { x1, y1, x2, y2 }
}

// Its pin rectangle 0.2 0.1 0.4 1.3 in its place.
fn pin(orient: Orient) -> Rect {
    let placed = Placed {
        corner: Point { x: 10000, y: 0 },
        orient,
        width: 4000,
        height: 2800,
    };
    let pin = Rect {
        x1: 400,
        y1: 200,
        x2: 800,
        y2: 2600,
    };
    rect_in_place(placed, pin)
}

// A point of it in its place: one that tells all eight orientations apart.
fn point(orient: Orient) -> (i64, i64) {
    let placed = Placed {
        corner: Point { x: 10000, y: 0 },
        orient,
        width: 4000,
        height: 2800,
    };
    let point = point_in_place(placed, Point { x: 100, y: 700 });
    (point.x, point.y)
}

// Its box.
fn whole(orient: Orient) -> Rect {
    let placed = Placed {
        corner: Point { x: 10000, y: 0 },
        orient,
        width: 4000,
        height: 2800,
    };
    box_in_place(placed)
}

fn has_pin(rt: &impl Abort, orient: Orient, want: Rect) {
    same_at(rt, pin(orient), want, orient);
}

#[test]
fn pins_in_their_places(rt: HostRuntime) {
    has_pin(&rt, Orient::N, rect(10400, 200, 10800, 2600));
    has_pin(&rt, Orient::S, rect(13200, 200, 13600, 2600));
    has_pin(&rt, Orient::W, rect(10200, 400, 12600, 800));
    has_pin(&rt, Orient::E, rect(10200, 3200, 12600, 3600));
    has_pin(&rt, Orient::FN, rect(13200, 200, 13600, 2600));
    has_pin(&rt, Orient::FS, rect(10400, 200, 10800, 2600));
    has_pin(&rt, Orient::FW, rect(10200, 400, 12600, 800));
    has_pin(&rt, Orient::FE, rect(10200, 3200, 12600, 3600));
}

fn has_point(rt: &impl Abort, orient: Orient, want: (i64, i64)) {
    same_at(rt, point(orient), want, orient);
}

#[test]
fn points_in_their_places(rt: HostRuntime) {
    has_point(&rt, Orient::N, (10100, 700));
    has_point(&rt, Orient::S, (13900, 2100));
    has_point(&rt, Orient::W, (12100, 100));
    has_point(&rt, Orient::E, (10700, 3900));
    has_point(&rt, Orient::FN, (13900, 700));
    has_point(&rt, Orient::FS, (10100, 2100));
    has_point(&rt, Orient::FW, (10700, 100));
    has_point(&rt, Orient::FE, (12100, 3900));
}

#[test]
fn boxes_of_macros(rt: HostRuntime) {
    same(&rt, whole(Orient::FS), rect(10000, 0, 14000, 2800));
    same(&rt, whole(Orient::E), rect(10000, 0, 12800, 4000));
}
