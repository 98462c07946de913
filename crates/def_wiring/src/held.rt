//! What has been read of the text of wiring.
//!
//! What counts has shown no fault: its numbers can be read and its names are new. Where they are not, the answer is want of
//! memory, which no clause ties to anything; it never comes.
//!
//! The wires of a net are held as they are read. Those of a net that does not count go with its `;`.
ghost use Rattle.std.specs.Prelude.{◌≡◌, [], ◌∷◌, ◌++◌, List, Some, None, IfOk, OnOk, map};
ghost use Rattle.def_wiring.specs.Record.{Said, cleared, said_word, said_unit, opened_via, opened_net, nothing_said};
ghost use Rattle.def_wiring.specs.Sort.{sort_of};
ghost use Rattle.def_wiring.specs.Standing.{act_in};
ghost use Rattle.def_wiring.specs.declared.standing.Standing.{Standing as There};
ghost use Rattle.def_wiring.specs.inside.Held.{Tells, Holds, Leads, Notes, Unites};
ghost use Rattle.def_wiring.specs.inside.Value.{says};
ghost use Rattle.reading.specs.Grammar.{AreHeard};
ghost use Rattle.reading.specs.Word.{Token, token, heard_token};

use crate::act::Act;
use crate::error::{Late, WiresKind};
use crate::fault::word_fault;
use crate::label::Label;
use crate::path::Path;
use crate::record::{Segment, ViaDef, ViaPlace, WiredNet};
use crate::section::Section;
use crate::sort::Sort;
use crate::standing::Standing;
use crate::via::via_of;
use crate::wire::{segment_of, via_place};
use entry_list::Entries;
use name_table::NameTable;
use named_entries::NamedEntries;
use outside::Name;
use reading::{Heard, Word};
use std::alloc::{AllocError, Global};
use std::mem;

/// What the sections have said.
#[derive(Drop)]
pub(crate) struct Sections<'a> {
    /// The names of all entries.
    pub(crate) via_names: NameTable<'a>,
    pub(crate) net_names: NameTable<'a>,
    /// Those that count.
    pub(crate) vias: NamedEntries<'a, ViaDef>,
    pub(crate) nets: NamedEntries<'a, WiredNet>,
    /// The first word of the entry that is open which shows a fault if the entry counts.
    pub(crate) late: Option<Late>,
    /// The wires of the net that is open.
    pub(crate) segments: Vec<Segment>,
    pub(crate) places: Vec<ViaPlace>,
}

/// What the units so far say, and where the next one stands.
#[derive(Drop)]
pub(crate) struct Held<'a> {
    pub(crate) said: Sections<'a>,
    pub(crate) standing: Standing<'a>,
    pub(crate) alloc: Global,
}

/// One more name, which is new.
fn add_name<'a>(names: &mut NameTable<'a>, name: &'a [u8]) -> Result<(), AllocError>
    ensures { OnOk result (names.new ≡ names.old ++ name.now ∷ []) }
{
    if names.contains(name) {
        return Err(AllocError);
    }
    match names.number(name) {
        Ok(_) => Ok(()),
        Err(_) => Err(AllocError),
    }
}

/// One more entry, whose name is new.
fn add_entry<'a, T: Drop>(
    entries: &mut NamedEntries<'a, T>,
    name: &'a [u8],
    entry: T,
) -> Result<(), AllocError>
    ensures names { OnOk result (entries.new.names ≡ entries.old.names ++ name.now ∷ []) }
    ensures entries { OnOk result (entries.new.entries ≡ entries.old.entries ++ entry ∷ []) }
{
    if entries.contains(name) {
        return Err(AllocError);
    }
    entries.add(name, entry)
}

impl<'a> Sections<'a> {
    fn new(alloc: Global) -> Result<Sections<'a>, AllocError>
        ensures { IfOk result (Tells nothing_said) }
    {
        Ok(Sections {
            via_names: NameTable::with_capacity(alloc, 0)?,
            net_names: NameTable::with_capacity(alloc, 0)?,
            vias: NamedEntries::new(alloc)?,
            nets: NamedEntries::new(alloc)?,
            late: None,
            segments: Vec::new(alloc),
            places: Vec::new(alloc),
        })
    }

    /// Leaves nothing of an open entry.
    fn clear(&mut self)
        ensures { (said : Said) → Tells said self.old → Tells (cleared said) self.new }
    {
        self.late = None;
        self.segments.clear();
        self.places.clear();
    }

    /// `- name` in VIAS.
    fn open_via(&mut self, name: &Word<'a>) -> Result<(), AllocError>
        ensures { OnOk result ((said : Said) → Tells said self.old → Tells (opened_via Sort.Minus (token name.now) said) self.new) }
    {
        self.clear();
        add_name(&mut self.via_names, name.text)
    }

    /// `- name` in SPECIALNETS.
    fn open_net(&mut self, name: &Word<'a>) -> Result<(), AllocError>
        ensures { OnOk result ((said : Said) → Tells said self.old → Tells (opened_net Sort.Minus (token name.now) said) self.new) }
    {
        self.clear();
        add_name(&mut self.net_names, name.text)
    }

    /// A word of an entry of which it is not known whether it counts, where no word before it shows a fault.
    fn note_word(&mut self, act: Act, path: &Path<'a>, sort: Sort, word: &Word<'a>)
        requires { self.now.late ≡ None }
        ensures { sort ≡ sort_of (token word.now) → Notes None (record { act = act; path = path.now; word = token word.now }) self.old self.new }
    {
        if let Some(kind) = word_fault(&self.vias, act, path, sort, word) {
            self.late = Some(Late {
                place: word.place,
                kind,
            });
        }
    }

    /// A word of an entry of which it is not known whether it counts.
    fn note_unknown(&mut self, act: Act, path: &Path<'a>, sort: Sort, word: &Word<'a>)
        ensures { sort ≡ sort_of (token word.now) → Notes None (record { act = act; path = path.now; word = token word.now }) self.old self.new }
    {
        match self.late {
            Some(_) => {}
            None => self.note_word(act, path, sort, word),
        }
    }

    /// A word of an entry.
    fn note(&mut self, power: Option<bool>, act: Act, path: &Path<'a>, sort: Sort, word: &Word<'a>)
        ensures { sort ≡ sort_of (token word.now) → Notes power (record { act = act; path = path.now; word = token word.now }) self.old self.new }
    {
        match power {
            Some(_) => {}
            None => self.note_unknown(act, path, sort, word),
        }
    }

    /// A generated via ends.
    fn end_via(&mut self, alloc: Global, standing: &Standing<'a>) -> Result<(), AllocError>
        ensures { OnOk result ((word : Token) → Leads Act.EndsVia standing.now word self.old self.new) }
    {
        self.clear();
        let via = via_of(alloc, &standing.name, &standing.entry)?;
        add_entry(&mut self.vias, standing.name.bytes(), via)
    }

    /// A point ends where no word has shown a fault, and with it a segment if it is not the first one.
    fn draw(&mut self, alloc: Global, standing: &Standing<'a>) -> Result<(), AllocError>
        requires { self.now.late ≡ None }
        ensures { OnOk result ((word : Token) → Leads Act.Point standing.now word self.old self.new) }
    {
        match &standing.path.last {
            Some(from) => {
                let segment = segment_of(alloc, &standing.path, from)?;
                self.segments.push(segment)?;
                Ok(())
            }
            None => Ok(()),
        }
    }

    /// A point ends.
    fn end_point(&mut self, alloc: Global, standing: &Standing<'a>) -> Result<(), AllocError>
        ensures { OnOk result ((word : Token) → Leads Act.Point standing.now word self.old self.new) }
    {
        match self.late {
            Some(_) => Ok(()),
            None => self.draw(alloc, standing),
        }
    }

    /// A via is placed where no word has shown a fault.
    fn add_place(&mut self, alloc: Global, path: &Path<'a>, via: &'a [u8]) -> Result<(), AllocError>
        requires { self.now.late ≡ None }
        ensures { OnOk result ((there : There) (word : Token) → there.path ≡ path.now → word.text ≡ via.now →
            Leads Act.Place there word self.old self.new) }
    {
        if !self.vias.contains(via) {
            return Err(AllocError);
        }
        let place = via_place(alloc, path, via)?;
        self.places.push(place)?;
        Ok(())
    }

    /// A via is placed.
    fn place(&mut self, alloc: Global, path: &Path<'a>, via: &'a [u8]) -> Result<(), AllocError>
        ensures { OnOk result ((there : There) (word : Token) → there.path ≡ path.now → word.text ≡ via.now →
            Leads Act.Place there word self.old self.new) }
    {
        match self.late {
            Some(_) => Ok(()),
            None => self.add_place(alloc, path, via),
        }
    }

    /// A net of power or ground ends.
    fn end_wired(&mut self, alloc: Global, power: bool, name: &Label<'a>) -> Result<(), AllocError>
        ensures { OnOk result ((there : There) (word : Token) → there.power ≡ Some power → there.name ≡ name.now →
            Leads Act.EndsNet there word self.old self.new) }
    {
        let None = self.late else {
            return Err(AllocError);
        };
        let segments = mem::replace(&mut self.segments, Vec::new(alloc));
        let places = mem::replace(&mut self.places, Vec::new(alloc));
        let net = net_of(alloc, power, name, segments, places)?;
        add_entry(&mut self.nets, name.bytes(), net)
    }

    /// Another net ends.
    fn end_other(&mut self)
        ensures { (there : There) (word : Token) → there.power ≡ None → Leads Act.EndsNet there word self.old self.new }
    {
        self.clear();
    }

    /// A net ends.
    fn end_net(&mut self, alloc: Global, standing: &Standing<'a>) -> Result<(), AllocError>
        ensures { OnOk result ((word : Token) → Leads Act.EndsNet standing.now word self.old self.new) }
    {
        match standing.power {
            Some(power) => self.end_wired(alloc, power, &standing.name),
            None => {
                self.end_other();
                Ok(())
            }
        }
    }

    /// A word of an entry that does this.
    fn take_act(
        &mut self,
        alloc: Global,
        act: Act,
        standing: &Standing<'a>,
        word: &Word<'a>,
    ) -> Result<(), AllocError>
        ensures { OnOk result (Leads act standing.now (token word.now) self.old self.new) }
    {
        match act {
            Act::EndsVia => self.end_via(alloc, standing),
            Act::Point => self.end_point(alloc, standing),
            Act::Place => self.place(alloc, &standing.path, word.text),
            Act::EndsNet => self.end_net(alloc, standing),
            _ => Ok(()),
        }
    }

    /// A word of an entry of this section.
    fn take_word(
        &mut self,
        alloc: Global,
        section: Section,
        standing: &Standing<'a>,
        sort: Sort,
        word: &Word<'a>,
    ) -> Result<(), AllocError>
        ensures { OnOk result (sort ≡ sort_of (token word.now) → (said : Said) → Tells said self.old →
            Tells (said_word (act_in section standing.now sort) standing.now (token word.now) said) self.new) }
    {
        let act = standing.act(section, sort);
        self.note(standing.power, act, &standing.path, sort, word);
        self.take_act(alloc, act, standing, word)
    }

    /// A unit of one word.
    fn take_one(
        &mut self,
        alloc: Global,
        section: Section,
        standing: &Standing<'a>,
        sort: Sort,
        word: &Word<'a>,
    ) -> Result<(), AllocError>
        ensures { OnOk result (sort ≡ sort_of (token word.now) → (said : Said) → Tells said self.old →
            Tells (said_unit section standing.now (token word.now ∷ []) said) self.new) }
    {
        match section {
            Section::Via => self.take_word(alloc, Section::Via, standing, sort, word),
            Section::Net => self.take_word(alloc, Section::Net, standing, sort, word),
            _ => Ok(()),
        }
    }

    /// Two words of VIAS.
    fn take_via_head(&mut self, first: Sort, second: &Word<'a>) -> Result<(), AllocError>
        ensures { OnOk result ((said : Said) → Tells said self.old → Tells (opened_via first (token second.now) said) self.new) }
    {
        match first {
            Sort::Minus => self.open_via(second),
            _ => Ok(()),
        }
    }

    /// Two words of SPECIALNETS.
    fn take_net_head(&mut self, first: Sort, second: &Word<'a>) -> Result<(), AllocError>
        ensures { OnOk result ((said : Said) → Tells said self.old → Tells (opened_net first (token second.now) said) self.new) }
    {
        match first {
            Sort::Minus => self.open_net(second),
            _ => Ok(()),
        }
    }

    /// A unit of two words.
    fn take_two(
        &mut self,
        section: Section,
        first: Sort,
        second: &Word<'a>,
    ) -> Result<(), AllocError>
        ensures { OnOk result ((there : There) (word : Token) → first ≡ sort_of word → (said : Said) → Tells said self.old →
            Tells (said_unit section there (word ∷ token second.now ∷ []) said) self.new) }
    {
        match section {
            Section::Vias => self.take_via_head(first, second),
            Section::Nets => self.take_net_head(first, second),
            _ => Ok(()),
        }
    }

    /// A unit.
    fn take(
        &mut self,
        alloc: Global,
        standing: &Standing<'a>,
        unit: &[Heard<'a, Sort>],
    ) -> Result<(), AllocError>
        ensures { OnOk result (AreHeard says [] unit.now →
            Unites standing.now (map heard_token unit.now) self.old self.new) }
    {
        let section = standing.section();
        match unit {
            [first] => self.take_one(alloc, section, standing, first.value, &first.word),
            [first, second] => self.take_two(section, first.value, &second.word),
            _ => Ok(()),
        }
    }
}

/// The net of this name.
fn net_of(
    alloc: Global,
    power: bool,
    name: &Label<'_>,
    segments: Vec<Segment>,
    places: Vec<ViaPlace>,
) -> Result<WiredNet, AllocError>
    ensures name { IfOk result (λ net. net.name ≡ name.now) }
    ensures power { IfOk result (λ net. net.power ≡ power) }
    ensures segments { IfOk result (λ net. net.segments ≡ segments.items) }
    ensures vias { IfOk result (λ net. net.vias ≡ places.items) }
{
    Ok(WiredNet {
        name: Name::new(alloc, name.bytes())?,
        power,
        segments: Entries::new(segments),
        vias: Entries::new(places),
    })
}

impl<'a> Held<'a> {
    pub(crate) fn new(alloc: Global) -> Result<Held<'a>, AllocError>
        ensures { IfOk result (Holds []) }
    {
        Ok(Held {
            said: Sections::new(alloc)?,
            standing: Standing::new(alloc),
            alloc,
        })
    }

    /// Takes what a whole unit says, and goes on to where it leads.
    pub(crate) fn take(&mut self, unit: &[Heard<'a, Sort>]) -> Result<(), AllocError>
        ensures { OnOk result (AreHeard says [] unit.now → (units : List (List Token)) → Holds units self.old →
            Holds (units ++ map heard_token unit.now ∷ []) self.new) }
    {
        self.said.take(self.alloc, &self.standing, unit)?;
        self.standing.go_on(unit)
    }
}
