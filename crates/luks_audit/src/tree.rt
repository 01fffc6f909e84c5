//! JSON values without floats, which have one text each.

ghost use Rattle.std.specs.Prelude.{◌≡◌, ◌++◌, ◌∷◌, [], IfOk, OnOk, false, length, option_map};
ghost use Rattle.std.specs.Prelude.{string_bytes};
ghost use Rattle.luks_audit.specs.Tree.{array_of, empty_object, num, optional_num};
ghost use Rattle.luks_audit.specs.Tree.{optional_word, unless_float, with_member};
ghost use Rattle.serde_json.specs.Data.{boolean, null, string};
ghost use Rattle.serde_json.specs.View.{view as data_of};
ghost use Rattle.serde_json.specs.Written.{compact_text, has_float};

use crate::float::has_float;
use serde_json::{Map, Value, put};
use std::alloc::{AllocError, Global};
use std::marker::Model;

/// A JSON value without floats. A clause sees the value.
#[derive(Drop)]
pub struct Tree {
    value: Value,
}

impl Model for Tree {
    ghost use Rattle.std.specs.Prelude.{◌≡◌, false};
    ghost use Rattle.luks2_json.specs.Code.{value_code};
    ghost use Rattle.serde_json.specs.Data.{Data};
    ghost use Rattle.serde_json.specs.View.{view as data_of};
    ghost use Rattle.serde_json.specs.Written.{has_float};

    ghost Value = { Data };

    ghost coded = { value_code };

    ghost view = { λ tree. data_of tree.value };

    ghost invariant = { λ tree. has_float (data_of tree.value) ≡ false };
}

impl Tree {
    /// Null.
    pub fn null() -> Tree
        ensures { result ≡ null }
    {
        Tree { value: Value::Null }
    }

    /// Whether something holds.
    pub fn boolean(holds: bool) -> Tree
        ensures { result ≡ boolean holds }
    {
        Tree {
            value: Value::Bool(holds),
        }
    }

    /// A number.
    pub fn number(number: u64) -> Tree
        ensures { result ≡ num number }
    {
        Tree {
            value: Value::from(number),
        }
    }

    /// A number, or null.
    pub fn optional_number(number: Option<u64>) -> Tree
        ensures { result ≡ optional_num number }
    {
        match number {
            Some(number) => Tree::number(number),
            None => Tree::null(),
        }
    }

    /// A text.
    pub fn text(text: String) -> Tree
        ensures { result ≡ string (string_bytes text) }
    {
        Tree {
            value: Value::from(text),
        }
    }

    /// A copy of a text.
    pub fn copied(alloc: Global, text: &str) -> Result<Tree, AllocError>
        ensures { IfOk result (λ tree. tree ≡ string text.now) }
    {
        Ok(Tree::text(String::from_str(alloc, text)?))
    }

    /// A copy of a text, or null.
    pub fn optional_word(alloc: Global, text: Option<&str>) -> Result<Tree, AllocError>
        ensures { IfOk result (λ tree.
            tree ≡ optional_word (option_map (λ t. t.now) text.entry)) }
    {
        match text {
            Some(text) => Tree::copied(alloc, text),
            None => Ok(Tree::null()),
        }
    }

    /// A copy of a value, or null if it has a float.
    #[tactic(auto, unfolding(crate::specs::Tree::unless_float))]
    pub fn stored(value: &Value) -> Result<Tree, AllocError>
        ensures { IfOk result (λ tree. tree ≡ unless_float (data_of value.now)) }
    {
        if has_float(value) {
            return Ok(Tree::null());
        }
        let value = value.clone()?;
        Ok(Tree { value })
    }

    /// A copy.
    pub fn copy(&self) -> Result<Tree, AllocError>
        ensures { IfOk result (λ tree. tree ≡ self.now) }
    {
        let value = self.value.clone()?;
        Ok(Tree { value })
    }

    /// The value.
    pub(crate) fn value(&self) -> &Value
        ensures value { data_of result.now ≡ self.now }
        ensures no_float { has_float (data_of result.now) ≡ false }
    {
        &self.value
    }

    /// The text of the value: compact, without a newline.
    pub fn to_vec(&self, alloc: Global) -> Result<Vec<u8>, AllocError>
        ensures { IfOk result (λ bytes. bytes.items ≡ compact_text self.now) }
    {
        self.value.to_vec(alloc)
    }
}

/// A JSON object without floats. A clause sees the object.
#[derive(Drop)]
pub struct Object {
    members: Map<String, Value>,
}

impl Model for Object {
    ghost use Rattle.std.specs.Prelude.{◌≡◌, false};
    ghost use Rattle.luks2_json.specs.Code.{value_code};
    ghost use Rattle.serde_json.specs.Data.{Data, object};
    ghost use Rattle.serde_json.specs.View.{members_view};
    ghost use Rattle.serde_json.specs.Written.{members_have_float};

    ghost Value = { Data };

    ghost coded = { value_code };

    ghost view = { λ owner. object (members_view owner.members.entries) };

    ghost invariant = { λ owner. members_have_float (members_view owner.members.entries) ≡ false };
}

impl Object {
    /// An object without members.
    pub fn new(alloc: Global) -> Object
        ensures { result ≡ empty_object }
    {
        Object {
            members: Map::new(alloc),
        }
    }

    /// Adds a member. A name that is there already gets this value.
    #[tactic(auto, unfolding(crate::specs::Tree::with_member))]
    pub fn push(&mut self, alloc: Global, name: &str, tree: Tree) -> Result<(), AllocError>
        ensures { OnOk result (self.new ≡ with_member name.now tree self.old) }
    {
        put(&mut self.members, alloc, name, tree.value)
    }

    /// The object as a value.
    pub fn into_tree(self) -> Tree
        ensures { result ≡ self }
    {
        Tree {
            value: Value::from(self.members),
        }
    }
}

/// A JSON array without floats. A clause sees the values.
#[derive(Drop)]
pub struct Array {
    values: Vec<Value>,
}

impl Model for Array {
    ghost use Rattle.std.specs.Coded.{coded_list};
    ghost use Rattle.std.specs.Prelude.{◌≡◌, List, false, map};
    ghost use Rattle.luks2_json.specs.Code.{value_code};
    ghost use Rattle.serde_json.specs.Data.{Data};
    ghost use Rattle.serde_json.specs.View.{items_view, view as data_of};
    ghost use Rattle.serde_json.specs.Written.{items_have_float};

    ghost Value = { List Data };

    ghost coded = { coded_list value_code };

    ghost view = { λ list. map data_of list.values.items };

    ghost invariant = { λ list. items_have_float (items_view list.values.items) ≡ false };
}

impl Array {
    /// An array without values.
    pub fn new(alloc: Global) -> Array
        ensures { result ≡ [] }
    {
        Array {
            values: Vec::new(alloc),
        }
    }

    /// How many values there are.
    pub fn len(&self) -> usize
        ensures { result ≡ length self.now }
    {
        self.values.len()
    }

    /// Adds a value at the end.
    pub fn push(&mut self, tree: Tree) -> Result<(), AllocError>
        ensures { OnOk result (self.new ≡ self.old ++ tree ∷ []) }
    {
        Ok(self.values.push(tree.value)?)
    }

    /// The array as a value.
    pub fn into_tree(self) -> Tree
        ensures { result ≡ array_of self }
    {
        Tree {
            value: Value::from(self.values),
        }
    }
}
