ghost use Rattle.std.specs.Prelude.{◌≡◌};
ghost use Rattle.std.specs.List.{list_any};
ghost use Rattle.block_grids.specs.Choice.{names_of, is_name_of, allows};

use entry_list::Entries;
use geom_rect::Orient;
use outside::Name;

// Whether a grid that states these orientations, or none, is for a block with this one.
pub(crate) fn allows(stated: &Option<Entries<Name>>, orient: Orient) -> bool
    ensures { result ≡ allows stated.now orient }
{
    match stated {
        Some(names) => names_orient(names.as_slice(), orient),
        None => true,
    }
}

fn names_orient(names: &[Name], orient: Orient) -> bool
    ensures { result ≡ list_any (is_name_of orient) names.now }
{
    names.iter().any(|name| is_name_of(orient, name.bytes()))
}

// Whether it is one of the two names of the orientation.
fn is_name_of(orient: Orient, name: &[u8]) -> bool
    ensures { result ≡ is_name_of orient name.now }
{
    let (word, turn) = names_of(orient);
    name == word || name == turn
}

fn names_of(orient: Orient) -> (&'static [u8], &'static [u8])
    ensures word { result.0.now ≡ (names_of orient).0 }
    ensures turn { result.1.now ≡ (names_of orient).1 }
{
    match orient {
        Orient::N => (b"N", b"R0"),
        Orient::S => (b"S", b"R180"),
        Orient::W => (b"W", b"R90"),
        Orient::E => (b"E", b"R270"),
        Orient::FN => (b"FN", b"MY"),
        Orient::FS => (b"FS", b"MX"),
        Orient::FW => (b"FW", b"MXR90"),
        Orient::FE => (b"FE", b"MYR90"),
    }
}
