// Names of labels, types and keys, and tags of graphs, jobs, users and imports.
ghost use Rattle.std.specs.Prelude.{◌≡◌, [], false, not, IsTrue, IfOk, IfErr};
ghost use Rattle.graph_model.specs.Names.{IfMalformed, is_name, is_tag, begins_name, continues_name, is_tag_byte};
ghost use Rattle.graph_model.specs.Refusals.{UnlessMem};
ghost use Rattle.std.specs.List.{list_all};

use crate::list::List;
use crate::memory::{Mem, TryClone};
use crate::refusal::Refusal;
use crate::text::Text;
use std::alloc::Global;
use std::marker::Model;

const LONGEST: usize = 64;

/// Why no name or no tag is read of a text.
#[derive(Clone, Copy, Debug, PartialEq, Eq)]
pub enum NameError {
    /// The text has another form.
    Malformed,
    /// No memory was to be had.
    Mem,
}

impl From<Mem> for NameError {
    ghost use Rattle.graph_model.specs.declared.name.NameError.TheVariants as name_error;

    ghost from_gives = { λ _ error. error ≡ name_error.Mem };

    fn from(_mem: Mem) -> NameError {
        NameError::Mem
    }
}

/// A label, a type or a property key: 1 to 64 bytes, an ASCII letter or `_`, and then ASCII letters, digits or `_`.
///
/// Names are ordered by their bytes. A copy shares the bytes and takes no memory for them.
#[derive(Debug, Drop, PartialEq, Eq, PartialOrd, Ord)]
pub struct Name {
    text: Text,
}

impl Model for Name {
    ghost use Rattle.std.specs.Prelude.{List, ℕ, IsTrue};
    ghost use Rattle.std.specs.Coded.{coded_list, coded_ℕ};
    ghost use Rattle.graph_model.specs.Names.{is_name};

    ghost Value = { List ℕ };

    ghost coded = { coded_list coded_ℕ };

    ghost view = { λ name. name.text };

    ghost invariant = { λ name. IsTrue (is_name name.text) };

    ghost inverse = { λ bytes. record { text = bytes } };
}

impl Name {
    /// The name that a text is.
    ///
    /// # Errors
    /// `Malformed` exactly where the text is no name, or `Mem`.
    pub fn parse(alloc: Global, text: &[u8]) -> Result<Name, NameError>
        ensures ok { IfOk result (λ name. (name ≡ text.now) × IsTrue (is_name text.now)) }
        ensures refused { IfErr result (λ why. IfMalformed why (is_name text.now ≡ false)) }
    {
        if !is_name_text(text) {
            return Err(NameError::Malformed);
        }
        Ok(Name {
            text: Text::of(alloc, text)?,
        })
    }

    /// The name that a text is.
    ///
    /// # Errors
    /// `BadArgument` with an empty `at` and row 0 exactly where the text is no name, or `Mem`.
    pub fn read(alloc: Global, text: &[u8]) -> Result<Name, Refusal>
        ensures ok { IfOk result (λ name. (name ≡ text.now) × IsTrue (is_name text.now)) }
        ensures refused { IfErr result (λ why. UnlessMem why ((why ≡ Refusal.BadArgument [] 0) × (is_name text.now ≡ false))) }
    {
        match Name::parse(alloc, text) {
            Ok(name) => Ok(name),
            Err(NameError::Malformed) => Err(no_name(alloc)),
            Err(NameError::Mem) => Err(Refusal::Mem),
        }
    }

    /// The bytes of the name.
    pub fn bytes(&self) -> &[u8]
        ensures bytes { result.now ≡ self.now }
        ensures valid { IsTrue (is_name self.now) }
    {
        self.text.bytes()
    }
}

impl TryClone for Name {
    fn try_clone(&self) -> Result<Name, Mem> {
        Ok(Name {
            text: self.text.try_clone()?,
        })
    }
}

/// The name of a graph, a job, a user or an import: 1 to 64 bytes, each an ASCII letter, a digit, `_`, `-` or `.`.
///
/// Tags are ordered by their bytes. A copy shares the bytes and takes no memory for them.
#[derive(Debug, Drop, PartialEq, Eq, PartialOrd, Ord)]
pub struct Tag {
    text: Text,
}

impl Model for Tag {
    ghost use Rattle.std.specs.Prelude.{List, ℕ, IsTrue};
    ghost use Rattle.std.specs.Coded.{coded_list, coded_ℕ};
    ghost use Rattle.graph_model.specs.Names.{is_tag};

    ghost Value = { List ℕ };

    ghost coded = { coded_list coded_ℕ };

    ghost view = { λ tag. tag.text };

    ghost invariant = { λ tag. IsTrue (is_tag tag.text) };

    ghost inverse = { λ bytes. record { text = bytes } };
}

impl Tag {
    /// The tag that a text is.
    ///
    /// # Errors
    /// `Malformed` exactly where the text is no tag, or `Mem`.
    pub fn parse(alloc: Global, text: &[u8]) -> Result<Tag, NameError>
        ensures ok { IfOk result (λ tag. (tag ≡ text.now) × IsTrue (is_tag text.now)) }
        ensures refused { IfErr result (λ why. IfMalformed why (is_tag text.now ≡ false)) }
    {
        if !is_tag_text(text) {
            return Err(NameError::Malformed);
        }
        Ok(Tag {
            text: Text::of(alloc, text)?,
        })
    }

    /// The tag that a text is.
    ///
    /// # Errors
    /// `BadArgument` with an empty `at` and row 0 exactly where the text is no tag, or `Mem`.
    pub fn read(alloc: Global, text: &[u8]) -> Result<Tag, Refusal>
        ensures ok { IfOk result (λ tag. (tag ≡ text.now) × IsTrue (is_tag text.now)) }
        ensures refused { IfErr result (λ why. UnlessMem why ((why ≡ Refusal.BadArgument [] 0) × (is_tag text.now ≡ false))) }
    {
        match Tag::parse(alloc, text) {
            Ok(tag) => Ok(tag),
            Err(NameError::Malformed) => Err(no_name(alloc)),
            Err(NameError::Mem) => Err(Refusal::Mem),
        }
    }

    /// The bytes of the tag.
    pub fn bytes(&self) -> &[u8]
        ensures bytes { result.now ≡ self.now }
        ensures valid { IsTrue (is_tag self.now) }
    {
        self.text.bytes()
    }
}

impl TryClone for Tag {
    fn try_clone(&self) -> Result<Tag, Mem> {
        Ok(Tag {
            text: self.text.try_clone()?,
        })
    }
}

// What a text that is no name or no tag is answered with, before it is known which argument it is.
fn no_name(alloc: Global) -> Refusal
    ensures { result ≡ Refusal.BadArgument [] 0 }
{
    Refusal::BadArgument {
        at: List::new(alloc),
        row: 0,
    }
}

fn is_name_text(text: &[u8]) -> bool
    ensures { result ≡ is_name text.now }
{
    let Some((first, rest)) = text.split_first() else {
        return false;
    };
    let fits = rest.len() < LONGEST;
    let continues = all_continue_name(rest);
    begins_name(*first) && continues && fits
}

fn is_tag_text(text: &[u8]) -> bool
    ensures { result ≡ is_tag text.now }
{
    let Some((_, rest)) = text.split_first() else {
        return false;
    };
    let fits = rest.len() < LONGEST;
    let all = all_tag_bytes(text);
    all && fits
}

fn all_continue_name(bytes: &[u8]) -> bool
    ensures { result ≡ list_all continues_name bytes.now }
{
    bytes.iter().all(|b| continues_name(*b))
}

fn all_tag_bytes(bytes: &[u8]) -> bool
    ensures { result ≡ list_all is_tag_byte bytes.now }
{
    bytes.iter().all(|b| is_tag_byte(*b))
}

fn begins_name(b: u8) -> bool
    ensures { result ≡ begins_name b }
{
    b.is_ascii_alphabetic() || b == b'_'
}

fn continues_name(b: u8) -> bool
    ensures { result ≡ continues_name b }
{
    b.is_ascii_alphanumeric() || b == b'_'
}

fn is_tag_byte(b: u8) -> bool
    ensures { result ≡ is_tag_byte b }
{
    continues_name(b) || b == b'-' || b == b'.'
}
