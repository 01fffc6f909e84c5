//! Members of the objects that are printed, by the types of their values.

ghost use Rattle.std.specs.Prelude.{◌≡◌, ◌++◌, IfOk, OnOk, map, option_map, string_bytes};
ghost use Rattle.luks_audit.specs.Table.{length_value, names_value};
ghost use Rattle.luks_audit.specs.Text.{optional_text};
ghost use Rattle.luks_audit.specs.Tree.{array_of, num, optional_num, optional_word};
ghost use Rattle.luks_audit.specs.Tree.{with_member};
ghost use Rattle.serde_json.specs.Data.{string};

use crate::rows::Length;
use crate::text::Text;
use crate::tree::{Array, Object, Tree};
use luks2_json::list::Names;
use std::alloc::{AllocError, Global};

impl Object {
    /// Adds a number.
    pub fn push_number(&mut self, alloc: Global, name: &str, number: u64) -> Result<(), AllocError>
        ensures { OnOk result (self.new ≡ with_member name.now (num number) self.old) }
    {
        self.push(alloc, name, Tree::number(number))
    }

    /// Adds a number, or null.
    pub fn push_optional_number(
        &mut self,
        alloc: Global,
        name: &str,
        number: Option<u64>,
    ) -> Result<(), AllocError>
        ensures { OnOk result (self.new ≡ with_member name.now (optional_num number) self.old) }
    {
        self.push(alloc, name, Tree::optional_number(number))
    }

    /// Adds a text.
    pub fn push_text(&mut self, alloc: Global, name: &str, text: &str) -> Result<(), AllocError>
        ensures { OnOk result (self.new ≡ with_member name.now (string text.now) self.old) }
    {
        let tree = Tree::copied(alloc, text)?;
        self.push(alloc, name, tree)
    }

    /// Adds a text, or null.
    pub fn push_optional_text(
        &mut self,
        alloc: Global,
        name: &str,
        text: &Option<Text>,
    ) -> Result<(), AllocError>
        ensures { OnOk result
            (self.new ≡ with_member name.now (optional_text text.now) self.old) }
    {
        match text {
            Some(text) => self.push(alloc, name, text.to_tree(alloc)?),
            None => self.push(alloc, name, Tree::null()),
        }
    }

    /// Adds a word of ours, or null.
    pub fn push_word(
        &mut self,
        alloc: Global,
        name: &str,
        word: Option<&str>,
    ) -> Result<(), AllocError>
        ensures { OnOk result (self.new
            ≡ with_member name.now (optional_word (option_map (λ t. t.now) word.entry)) self.old) }
    {
        let tree = Tree::optional_word(alloc, word)?;
        self.push(alloc, name, tree)
    }

    /// Adds names, or an empty array.
    pub fn push_names(
        &mut self,
        alloc: Global,
        name: &str,
        names: &Option<Names>,
    ) -> Result<(), AllocError>
        ensures { OnOk result (self.new ≡ with_member name.now (names_value names.now) self.old) }
    {
        match names {
            Some(names) => {
                let values = text_array(alloc, names.as_slice())?;
                self.push_array(alloc, name, values)
            }
            None => self.push_array(alloc, name, Array::new(alloc)),
        }
    }

    /// Adds the length of a segment, or null.
    pub fn push_length(
        &mut self,
        alloc: Global,
        name: &str,
        length: Option<Length>,
    ) -> Result<(), AllocError>
        ensures { OnOk result (self.new ≡ with_member name.now (length_value length) self.old) }
    {
        match length {
            Some(Length::Dynamic) => self.push_text(alloc, name, "dynamic"),
            Some(Length::Fixed(bytes)) => self.push_number(alloc, name, bytes),
            None => self.push(alloc, name, Tree::null()),
        }
    }

    /// Adds an array.
    pub fn push_array(&mut self, alloc: Global, name: &str, values: Array) -> Result<(), AllocError>
        ensures { OnOk result (self.new ≡ with_member name.now (array_of values) self.old) }
    {
        self.push(alloc, name, values.into_tree())
    }
}

/// The texts as an array.
pub(crate) fn text_array(alloc: Global, texts: &[String]) -> Result<Array, AllocError>
    ensures { IfOk result (λ made. made ≡ map string (map string_bytes texts.now)) }
{
    let mut made = Array::new(alloc);
    for text in texts {
        made.push(Tree::copied(alloc, text.as_str())?)?;
    }
    Ok(made)
}
