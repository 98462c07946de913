ghost use Rattle.std.specs.Prelude.{◌≡◌, ◌≤◌, ◌<◌, All, IfOk, IfErr, IfSome, OnOk, length, take};
ghost use Rattle.outside.specs.declared.whole.ReadError.TheVariants.{TooLong, ReadFault};
ghost use Rattle.input_files.specs.Inputs.{names_of, name_at, AreTextsOf, EachFits, IsTooLong, ReadFails};

use crate::unread::Unread;
use entry_list::Entries;
use outside::{Files, ReadError, read_whole};
use std::alloc::Global;

/// The texts of these files, each of at most `limit` bytes, read one after the other. A name may stand more than once.
///
/// Error: the first file that was not read. Those before it were.
pub fn read_each<F: Files>(
    alloc: Global,
    files: &mut F,
    names: &[&str],
    limit: u64,
) -> Result<Vec<Entries<u8>>, Unread>
    ensures texts { IfOk result (λ texts. IfSome (F.known files.old) (λ held.
        AreTextsOf held (names_of names.now) texts.items)) }
    ensures count { IfOk result (λ texts. length texts.items ≡ length names.now) }
    ensures fit { IfOk result (λ texts. All (λ text. length text ≤ limit) texts.items) }
    ensures calm { OnOk result (F.counts files.new ≡ F.counts files.old) }
    ensures kept { F.known files.new ≡ F.known files.old }
    ensures place { IfErr result (λ e. e.place < length names.now) }
    ensures earlier { IfErr result (λ e. IfSome (F.known files.old) (λ held.
        EachFits held limit (take e.place (names_of names.now)))) }
    ensures too_long { IfErr result (λ e. e.error ≡ TooLong
        → IsTooLong (F.known files.old) limit (name_at (names_of names.now) e.place)) }
    ensures calm_too_long { IfErr result (λ e. e.error ≡ TooLong → F.counts files.new ≡ F.counts files.old) }
    ensures fault { IfErr result (λ e. e.error ≡ ReadFault
        → ReadFails (F.known files.old) (name_at (names_of names.now) e.place) (F.counts files.old) (F.counts files.new)) }
{
    let mut texts = Vec::new(alloc);
    for (place, name) in names.iter().enumerate() {
        match read_whole(alloc, files, name, limit) {
            Ok(text) => {
                let Ok(()) = texts.push(Entries::new(text)) else {
                    return Err(Unread {
                        place,
                        error: ReadError::Want,
                    });
                };
            }
            Err(error) => return Err(Unread { place, error }),
        }
    }
    Ok(texts)
}
