//! The section of the vias.
ghost use Rattle.std.specs.Prelude.{◌≡◌, ◌++◌, ◌<◌, OnOk, All, length, map};
ghost use Rattle.std.specs.BTreeMap.{values};
ghost use Rattle.lef_tech.specs.Limits.{TechKeeps};
ghost use Rattle.def_writer.specs.Limits.{ArrayFits, PitchKeeps};
ghost use Rattle.def_writer.specs.Line.{line_of, text_of};
ghost use Rattle.def_writer.specs.Via.{via_line, gap};
ghost use Rattle.def_writer.specs.Written.{via_lines};
ghost use Rattle.def_writer.specs.inside.Line.{spaced};
ghost use Rattle.def_writer.specs.inside.Via.{rule_words, space_words, count_words};

use crate::line::{append_line, append_words, digits};
use crate::via::{Via, append_name, via_of};
use itoa::Buffer;
use lef_tech::Tech;
use std::alloc::AllocError;
use std::collections::BTreeMap;
use via_arrays::CutArray;

// The section of the vias of these arrays.
pub(crate) fn append_vias(
    out: &mut Vec<u8>,
    tech: &Tech,
    vias: &BTreeMap<Via, CutArray>,
) -> Result<(), AllocError>
    requires tech { TechKeeps tech.now }
    requires arrays { All (ArrayFits tech.now) (values vias.now) }
    ensures { OnOk result (out.new.items ≡ out.old.items ++ text_of (via_lines tech.now (values vias.now))) }
{
    let mut count = Buffer::new();
    append_line(out, &[b"VIAS", count.format(vias.len()).as_bytes(), b";"])?;
    append_all(out, tech, vias)?;
    append_line(out, &[b"END", b"VIAS"])
}

// The lines of the vias.
fn append_all(
    out: &mut Vec<u8>,
    tech: &Tech,
    vias: &BTreeMap<Via, CutArray>,
) -> Result<(), AllocError>
    requires tech { TechKeeps tech.now }
    requires arrays { All (ArrayFits tech.now) (values vias.now) }
    ensures { OnOk result (out.new.items ≡ out.old.items ++ text_of (map (via_line tech.now) (values vias.now))) }
{
    for array in vias.values() {
        append_via(out, tech, array)?;
    }
    Ok(())
}

// The line of a via.
fn append_via(out: &mut Vec<u8>, tech: &Tech, array: &CutArray) -> Result<(), AllocError>
    requires tech { TechKeeps tech.now }
    requires array { ArrayFits tech.now array.now }
    ensures { OnOk result (out.new.items ≡ out.old.items ++ line_of (via_line tech.now array.now)) }
{
    out.extend_from_slice(b"- ")?;
    append_name(out, via_of(array))?;
    out.push(b' ')?;
    append_rule(out, tech, array)?;
    out.push(b' ')?;
    append_spaces(out, array)?;
    out.push(b' ')?;
    append_counts(out, array)?;
    Ok(())
}

// The rule of a via, its cut and its layers.
fn append_rule(out: &mut Vec<u8>, tech: &Tech, array: &CutArray) -> Result<(), AllocError>
    requires tech { TechKeeps tech.now }
    requires array { array.now.rule < length tech.now.rules }
    ensures { OnOk result (out.new.items ≡ out.old.items ++ spaced (rule_words tech.now array.now)) }
{
    let rule = &tech.rules.as_slice()[array.rule as usize];
    let lower = tech.routing.as_slice()[rule.lower as usize].name.bytes();
    let cut = tech.cuts.as_slice()[rule.cut as usize].name.bytes();
    let upper = tech.routing.as_slice()[rule.upper as usize].name.bytes();
    let (mut in_x, mut in_y) = (Buffer::new(), Buffer::new());
    let width = digits(&mut in_x, array.cut_x);
    let height = digits(&mut in_y, array.cut_y);
    append_words(
        out,
        &[
            b"+",
            b"VIARULE",
            rule.name.bytes(),
            b"+",
            b"CUTSIZE",
            width,
            height,
            b"+",
            b"LAYERS",
            lower,
            cut,
            upper,
        ],
    )?;
    Ok(())
}

// The space between the cuts of a via, and its enclosures.
fn append_spaces(out: &mut Vec<u8>, array: &CutArray) -> Result<(), AllocError>
    requires in_x { PitchKeeps array.now.cut_x array.now.pitch_x }
    requires in_y { PitchKeeps array.now.cut_y array.now.pitch_y }
    ensures { OnOk result (out.new.items ≡ out.old.items ++ spaced (space_words array.now)) }
{
    let (mut in_x, mut in_y) = (Buffer::new(), Buffer::new());
    let (mut below_x, mut below_y) = (Buffer::new(), Buffer::new());
    let (mut above_x, mut above_y) = (Buffer::new(), Buffer::new());
    let gap_x = digits(&mut in_x, gap(array.cut_x, array.pitch_x));
    let gap_y = digits(&mut in_y, gap(array.cut_y, array.pitch_y));
    let lower_x = digits(&mut below_x, array.lower_x);
    let lower_y = digits(&mut below_y, array.lower_y);
    let upper_x = digits(&mut above_x, array.upper_x);
    let upper_y = digits(&mut above_y, array.upper_y);
    append_words(
        out,
        &[
            b"+",
            b"CUTSPACING",
            gap_x,
            gap_y,
            b"+",
            b"ENCLOSURE",
            lower_x,
            lower_y,
            upper_x,
            upper_y,
        ],
    )?;
    Ok(())
}

// The space between a cut and the next one.
fn gap(cut: i64, pitch: i64) -> i64
    requires { PitchKeeps cut pitch }
    ensures { result ≡ gap cut pitch }
{
    pitch - cut
}

// How many rows and columns of cuts a via has, and the end of its line.
fn append_counts(out: &mut Vec<u8>, array: &CutArray) -> Result<(), AllocError>
    ensures { OnOk result (out.new.items ≡ out.old.items ++ line_of (count_words array.now)) }
{
    let (mut down, mut across) = (Buffer::new(), Buffer::new());
    let rows = down.format(array.rows).as_bytes();
    let columns = across.format(array.columns).as_bytes();
    append_line(out, &[b"+", b"ROWCOL", rows, columns, b";"])
}
