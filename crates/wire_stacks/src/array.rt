//! The arrays of cuts of a chain of vias, and their resistances.
ghost use Rattle.std.specs.Prelude.{◌≡◌, ◌<◌, All, IfOk, map, length};
ghost use Rattle.lef_tech.specs.Limits.{TechKeeps};
ghost use Rattle.via_arrays.specs.Pairs.{HasResistance};
ghost use Rattle.via_arrays.specs.Resistances.{IsResistance};
ghost use Rattle.wire_chains.specs.declared.via.ViaAt.{ViaAt};
ghost use Rattle.wire_names.specs.Keeping.{ViaStands};
ghost use Rattle.wire_stacks.specs.Vias.{via_at, array_of};
ghost use Rattle.wire_stacks.specs.inside.Made.{HaveResistances};

use lef_tech::Tech;
use std::alloc::{AllocError, Global};
use via_arrays::{CutArray, resistance};
use wire_chains::ViaAt;
use wire_limits::per_cut;
use wire_names::NamedVia;

// The array of each via of a chain, in turn.
pub(crate) fn arrays(
    alloc: Global,
    vias: &[NamedVia],
    chain: &[ViaAt],
) -> Result<Vec<CutArray>, AllocError>
    requires { All (λ (via : ViaAt). via.via < length vias.now) chain.now }
    ensures { IfOk result (λ arrays. arrays.items ≡ map (λ (via : ViaAt). array_of (via_at vias.now via.via)) chain.now) }
{
    let mut arrays = Vec::new(alloc);
    for via in chain {
        arrays.push(array_of(&vias[via.via as usize]))?;
    }
    Ok(arrays)
}

fn array_of(via: &NamedVia) -> CutArray
    ensures { result ≡ array_of via.now }
{
    CutArray {
        rule: via.rule,
        columns: via.columns,
        rows: via.rows,
        cut_x: via.cut_x,
        cut_y: via.cut_y,
        pitch_x: via.pitch_x,
        pitch_y: via.pitch_y,
        lower_x: via.lower_x,
        lower_y: via.lower_y,
        upper_x: via.upper_x,
        upper_y: via.upper_y,
    }
}

// The resistance of the array of each via of a chain, in turn.
pub(crate) fn ohms(
    alloc: Global,
    tech: &Tech,
    vias: &[NamedVia],
    chain: &[ViaAt],
) -> Result<Vec<u64>, AllocError>
    requires tech { TechKeeps tech.now }
    requires stand { All (ViaStands (length tech.now.routing) (length tech.now.cuts) (length tech.now.rules)) vias.now }
    requires within { All (λ (via : ViaAt). via.via < length vias.now) chain.now }
    ensures { IfOk result (λ ohms. HaveResistances tech.now vias.now chain.now ohms.items) }
{
    let mut ohms = Vec::new(alloc);
    for via in chain {
        ohms.push(ohms_of(tech, &vias[via.via as usize])?)?;
    }
    Ok(ohms)
}

// The resistance of the cuts of a via side by side. Where a cut has none, that was refused before, and the answer is want of
// memory.
fn ohms_of(tech: &Tech, via: &NamedVia) -> Result<u64, AllocError>
    requires tech { TechKeeps tech.now }
    requires stands { ViaStands (length tech.now.routing) (length tech.now.cuts) (length tech.now.rules) via.now }
    ensures { IfOk result (HasResistance tech.now via.now.rule (array_of via.now)) }
{
    let Some(per_cut) = per_cut(tech, via.rule) else {
        return Err(AllocError);
    };
    let cuts = u64::from(via.columns) * u64::from(via.rows);
    Ok(shared(per_cut, cuts))
}

// The resistance of cuts side by side.
fn shared(per_cut: u64, cuts: u64) -> u64
    requires some { 0 < cuts }
    ensures { IsResistance per_cut cuts result }
{
    resistance(u128::from(per_cut), u128::from(cuts)) as u64
}
