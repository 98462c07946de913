//! What has been read of the text of cells.
//!
//! The words of a whole unit come with what they say, so that no number is read here, and nothing but an allocation can
//! fail.
ghost use Rattle.std.specs.Prelude.{◌≡◌, true, false, [], ◌∷◌, Some, OnOk, IfOk, map, unwrap_or};
ghost use Rattle.lef_cells.specs.declared.section.Section.{Section as There};
ghost use Rattle.lef_cells.specs.Record.{SaysSize};
ghost use Rattle.lef_cells.specs.Rule.{opens};
ghost use Rattle.lef_cells.specs.Sort.{sort_of};
ghost use Rattle.lef_cells.specs.inside.Held.{HoldsAll, Holds, Leads, first_size};
ghost use Rattle.lef_cells.specs.inside.Value.{says};
ghost use Rattle.reading.specs.Grammar.{AreHeard};
ghost use Rattle.reading.specs.Word.{Token, token, heard_token};

use crate::record::{MacroCell, Site};
use crate::section::{Section, Standing};
use crate::sort::Sort;
use crate::value::Value;
use lef_statements::is_word;
use named_entries::NamedEntries;
use outside::Name;
use reading::{Heard, Word};
use std::alloc::{AllocError, Global};

/// `SIZE w BY h ;`, in pm.
#[derive(Clone, Copy, Debug)]
pub(crate) struct Size {
    pub(crate) width: u64,
    pub(crate) height: u64,
}

/// What the section that is open has said so far.
#[derive(Debug, Drop)]
pub(crate) struct Open<'a> {
    pub(crate) name: &'a [u8],
    /// Its first SIZE.
    pub(crate) size: Option<Size>,
    /// Whether its first CLASS makes it a block.
    pub(crate) block: Option<bool>,
}

impl<'a> Open<'a> {
    /// A section of this name, of which nothing is read yet.
    fn new(name: &'a [u8]) -> Open<'a>
        ensures { result ≡ record { name = name.entry; size = None; block = None } }
    {
        Open {
            name,
            size: None,
            block: None,
        }
    }

    /// Its first SIZE; of a section that may end there is one.
    fn first_size(&self) -> Size
        ensures { result ≡ first_size self.now.size }
    {
        match self.size {
            Some(size) => size,
            None => Size {
                width: 0,
                height: 0,
            },
        }
    }
}

/// What the sections have said: those that have ended, and the one that is open, if one is.
#[derive(Drop)]
pub(crate) struct Sections<'a> {
    pub(crate) sites: NamedEntries<'a, Site>,
    pub(crate) macros: NamedEntries<'a, MacroCell>,
    pub(crate) open: Open<'a>,
}

impl<'a> Sections<'a> {
    fn new(alloc: Global) -> Result<Sections<'a>, AllocError>
        ensures { IfOk result (λ said. HoldsAll [] said) }
    {
        Ok(Sections {
            sites: NamedEntries::new(alloc)?,
            macros: NamedEntries::new(alloc)?,
            open: Open::new(b""),
        })
    }
}

/// What the units so far say, and where the next one stands.
#[derive(Drop)]
pub(crate) struct Held<'a> {
    pub(crate) said: Sections<'a>,
    pub(crate) standing: Standing<'a>,
    pub(crate) alloc: Global,
}

impl<'a> Held<'a> {
    pub(crate) fn new(alloc: Global) -> Result<Held<'a>, AllocError>
        ensures { IfOk result (λ held. Holds [] held) }
    {
        Ok(Held {
            said: Sections::new(alloc)?,
            standing: Standing::new(),
            alloc,
        })
    }
}

/// A site or a macro opens.
fn open_section<'a>(said: &mut Sections<'a>, name: &Word<'a>)
    ensures { (section : There) (first : Token) → opens (sort_of first) ≡ true →
        Leads section (first ∷ token name.now ∷ []) said.old said.new }
{
    said.open = Open::new(name.text);
}

/// The site that is open, whole.
fn site_of(alloc: Global, from: &Open<'_>) -> Result<Site, AllocError>
    ensures name { IfOk result (λ site. site.name ≡ from.now.name.now) }
    ensures size { IfOk result (λ site. first_size from.now.size ≡ record { width = site.width; height = site.height }) }
{
    let size = from.first_size();
    Ok(Site {
        name: Name::new(alloc, from.name)?,
        width: size.width,
        height: size.height,
    })
}

/// The macro that is open, whole.
fn macro_of(alloc: Global, from: &Open<'_>) -> Result<MacroCell, AllocError>
    ensures name { IfOk result (λ cell. cell.name ≡ from.now.name.now) }
    ensures size { IfOk result (λ cell. first_size from.now.size ≡ record { width = cell.width; height = cell.height }) }
    ensures block { IfOk result (λ cell. cell.block ≡ unwrap_or from.now.block false) }
{
    let size = from.first_size();
    Ok(MacroCell {
        name: Name::new(alloc, from.name)?,
        block: from.block.unwrap_or(false),
        width: size.width,
        height: size.height,
    })
}

/// A site ends, a macro, or the library.
fn end_section(said: &mut Sections<'_>, section: Section, alloc: Global) -> Result<(), AllocError>
    ensures { OnOk result ((first name : Token) → sort_of first ≡ Sort.End →
        Leads section (first ∷ name ∷ []) said.old said.new) }
{
    match section {
        Section::SizedSite => {
            let site = site_of(alloc, &said.open)?;
            said.sites.add(said.open.name, site)
        }
        Section::SizedMacro => {
            let cell = macro_of(alloc, &said.open)?;
            said.macros.add(said.open.name, cell)
        }
        _ => Ok(()),
    }
}

/// The class of the section that is open.
fn take_class(said: &mut Sections<'_>, class: &Word<'_>)
    ensures { (section : There) (first : Token) → sort_of first ≡ Sort.Class →
        Leads section (first ∷ token class.now ∷ []) said.old said.new }
{
    said.open.block = Some(said.open.block.unwrap_or(is_word(b"BLOCK", class)));
}

/// A unit of two words, of which the first is of this sort.
fn take_two<'a>(
    said: &mut Sections<'a>,
    section: Section,
    alloc: Global,
    sort: Sort,
    second: &Word<'a>,
) -> Result<(), AllocError>
    ensures { OnOk result ((first : Token) → sort ≡ sort_of first →
        Leads section (first ∷ token second.now ∷ []) said.old said.new) }
{
    match sort {
        Sort::Site => {
            open_section(said, second);
            Ok(())
        }
        Sort::Macro => {
            open_section(said, second);
            Ok(())
        }
        Sort::End => end_section(said, section, alloc),
        Sort::Class => {
            take_class(said, second);
            Ok(())
        }
        _ => Ok(()),
    }
}

/// The size of the section that is open.
fn take_size(said: &mut Sections<'_>, size: Size)
    ensures { (section : There) (first w by h stop : Token) →
        (sort_of first ≡ Sort.Size → SaysSize (Some (first ∷ w ∷ by ∷ h ∷ stop ∷ [])) size.width size.height) →
        Leads section (first ∷ w ∷ by ∷ h ∷ stop ∷ []) said.old said.new }
{
    said.open.size = Some(said.open.size.unwrap_or(size));
}

/// What a whole unit says in this section.
pub(crate) fn take_unit<'a>(
    said: &mut Sections<'a>,
    section: Section,
    alloc: Global,
    unit: &[Heard<'a, Value>],
) -> Result<(), AllocError>
    ensures { OnOk result (AreHeard says [] unit.now → Leads section (map heard_token unit.now) said.old said.new) }
{
    match unit {
        [first, second] => take_two(said, section, alloc, first.value.first(), &second.word),
        [_, width, _, height, _] => {
            take_size(
                said,
                Size {
                    width: width.value.length(),
                    height: height.value.length(),
                },
            );
            Ok(())
        }
        _ => Ok(()),
    }
}
