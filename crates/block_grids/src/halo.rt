//! How far grids over macros keep other grids away from their blocks.
ghost use Rattle.std.specs.Prelude.{◌≡◌, ◌⊎◌, ◌<◌, ℕ, true, pos, length, IfOk, Some, MatchResult};
ghost use Rattle.entry_list.specs.InTurn.{InTurn};
ghost use Rattle.block_grids.specs.declared.halo.HaloError.TheVariants.{Halo as OfHalo, Want};
ghost use Rattle.block_grids.specs.Halo.{whole, with_sides, is_count, side, halo_of, no_halo, stated_halo, grid_halo, first_bad, HasHalo};

use entry_list::Entries;
use pdn_script::{GridRule, Script};
use std::alloc::{AllocError, AllocFailed, Global};

// A micrometre, in pm.
const PICOMETRES: u128 = 1_000_000;

/// How far the grid of a block keeps other grids away from the four sides of its box, in units of the drawing.
#[derive(Clone, Copy, Debug, PartialEq, Eq)]
pub struct Halo {
    pub left: i64,
    pub bottom: i64,
    pub right: i64,
    pub top: i64,
}

/// Why there are no halos.
#[derive(Clone, Copy, Debug, PartialEq, Eq)]
pub enum HaloError {
    /// The halo of this grid, by its place from 0 in the script, is not one, two or four lengths, or one of them is no whole
    /// number of units.
    Halo(u32),
    /// There was not enough memory.
    Want,
}

impl From<AllocError> for HaloError {
    ghost from_gives = { λ _ e. e ≡ Want };

    fn from(_error: AllocError) -> HaloError {
        HaloError::Want
    }
}

impl<T: Drop> From<AllocFailed<T>> for HaloError {
    ghost from_gives = { λ _ e. e ≡ Want };

    fn from(_error: AllocFailed<T>) -> HaloError {
        HaloError::Want
    }
}

/// The halos of the grids of a script, in their order, where a micrometre has so many units. A grid that is not over macros,
/// and one that states none, keeps nothing away.
///
/// Errors: the first grid whose halo is none; want of memory.
#[tactic(auto, using(crate::proofs::Steps::turn_more, crate::proofs::Steps::first_of))]
pub fn halos_of(alloc: Global, script: &Script, units: u32) -> Result<Vec<Halo>, HaloError>
    ensures { MatchResult result (λ halos. InTurn (HasHalo units) script.now.grids halos.items)
        (λ error. (error ≡ Want) ⊎ ((grid : ℕ) × (error ≡ OfHalo grid) × (first_bad units script.now ≡ Some grid))) }
{
    let mut halos = Vec::new(alloc);
    for (place, grid) in script.grids.as_slice().iter().enumerate() {
        match grid_halo(units, grid)? {
            Some(halo) => halos.push(halo)?,
            None => return Err(HaloError::Halo(number(place)?)),
        }
    }
    Ok(halos)
}

// A place as a number of 32 bits. More are want of memory.
fn number(place: usize) -> Result<u32, AllocError>
    ensures { IfOk result (λ number. number ≡ place) }
{
    match u32::try_from(place) {
        Ok(number) => Ok(number),
        Err(_) => Err(AllocError),
    }
}

fn grid_halo(units: u32, grid: &GridRule) -> Result<Option<Halo>, AllocError>
    ensures { IfOk result (λ halo. halo ≡ grid_halo units grid.now) }
{
    if grid.macro_ {
        stated_halo(units, &grid.halo)
    } else {
        Ok(Some(NO_HALO))
    }
}

fn stated_halo(units: u32, lengths: &Option<Entries<u64>>) -> Result<Option<Halo>, AllocError>
    ensures { IfOk result (λ halo. halo ≡ stated_halo units lengths.now) }
{
    match lengths {
        Some(lengths) => halo_of(units, lengths.as_slice()),
        None => Ok(Some(NO_HALO)),
    }
}

const NO_HALO: Halo = Halo {
    left: 0,
    bottom: 0,
    right: 0,
    top: 0,
};

fn halo_of(units: u32, lengths: &[u64]) -> Result<Option<Halo>, AllocError>
    ensures { IfOk result (λ halo. halo ≡ halo_of units lengths.now) }
{
    if !is_count(lengths.len()) {
        return Ok(None);
    }
    let left = side(units, lengths, 0)?;
    let bottom = side(units, lengths, 1)?;
    let right = side(units, lengths, 2)?;
    let top = side(units, lengths, 3)?;
    Ok(with_sides(left, bottom, right, top))
}

fn is_count(count: usize) -> bool
    ensures value { result ≡ is_count count }
    ensures some { result ≡ true → 0 < count }
{
    count == 1 || count == 2 || count == 4
}

// A side: left, bottom, right and top.
fn side(units: u32, lengths: &[u64], k: usize) -> Result<Option<i64>, AllocError>
    requires { 0 < length lengths.now }
    ensures { IfOk result (λ z. z ≡ side units lengths.now k) }
{
    whole(units, lengths[k % lengths.len()])
}

// A length in units, where it is a whole number of them. One that does not fit is answered as want of memory.
fn whole(units: u32, length: u64) -> Result<Option<i64>, AllocError>
    ensures { IfOk result (λ z. z ≡ whole units length) }
{
    let scaled = u128::from(length) * u128::from(units);
    if scaled % PICOMETRES != 0 {
        return Ok(None);
    }
    Ok(Some(fitted(scaled / PICOMETRES)?))
}

fn fitted(number: u128) -> Result<i64, AllocError>
    ensures { IfOk result (λ z. z ≡ pos number) }
{
    match i64::try_from(number) {
        Ok(number) => Ok(number),
        Err(_) => Err(AllocError),
    }
}

fn with_sides(
    left: Option<i64>,
    bottom: Option<i64>,
    right: Option<i64>,
    top: Option<i64>,
) -> Option<Halo>
    ensures { result ≡ with_sides left bottom right top }
{
    Some(Halo {
        left: left?,
        bottom: bottom?,
        right: right?,
        top: top?,
    })
}
