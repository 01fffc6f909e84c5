//! The text of a JSON area as a tree of values.

ghost use Rattle.std.specs.Prelude.{◌≡◌, ◌<◌, ◌⊎◌, ◌↔◌, Some, None, Ok, Err, IfOk, IfErr};
ghost use Rattle.std.specs.Prelude.{if◌then◌else◌, is_some, length};
ghost use Rattle.luks2_json.specs.Member.{in_member};
ghost use Rattle.luks2_json.specs.Tree.{has_objects, tree_of};
ghost use Rattle.serde_json.specs.Errors.{IsMemory};
ghost use Rattle.serde_json.specs.Find.{as_object};
ghost use Rattle.serde_json.specs.View.{view as data_of};

use luks_format::fault::HeaderFault;
use serde_json::Value;
use std::alloc::Global;
use std::marker::Model;

/// The metadata in a JSON area: an object with objects of key slots, segments and digests. A clause
/// sees the tree of JSON values.
#[derive(Drop, Debug)]
pub struct Metadata {
    tree: Value,
}

impl Model for Metadata {
    ghost use Rattle.luks2_json.specs.Code.{value_code};
    ghost use Rattle.serde_json.specs.Data.{Data};
    ghost use Rattle.serde_json.specs.View.{view as data_of};

    ghost Value = { Data };

    ghost coded = { value_code };

    ghost view = { λ metadata. data_of metadata.tree };
}

// There is an object under this name.
fn object_at(tree: &Value, name: &str) -> bool
    ensures { result ≡ is_some (in_member name.now as_object (data_of tree.now)) }
{
    match tree.get(name) {
        Some(member) => member.is_object(),
        None => false,
    }
}

// The objects of key slots, segments and digests are present.
#[tactic(auto, unfolding(crate::specs::Tree::has_objects))]
fn complete(tree: &Value) -> bool
    ensures { result ≡ has_objects (data_of tree.now) }
{
    object_at(tree, "keyslots") && object_at(tree, "segments") && object_at(tree, "digests")
}

// Why a text was not read: Memory exactly if memory ran out, and otherwise Json.
fn fault_of(error: serde_json::Error) -> HeaderFault
    ensures memory { (result ≡ HeaderFault.Memory) ↔ IsMemory error }
    ensures json { (result ≡ HeaderFault.Json) ↔ (¬ IsMemory error) }
    ensures only { (result ≡ HeaderFault.Json) ⊎ (result ≡ HeaderFault.Memory) }
{
    if error.is_memory() {
        HeaderFault::Memory
    } else {
        HeaderFault::Json
    }
}

impl Metadata {
    // The metadata of a text that was read as this tree, or Json if the tree lacks an object.
    fn with_tree(tree: Value) -> Result<Metadata, HeaderFault>
        ensures { result
            ≡ (if has_objects (data_of tree) then Ok (data_of tree) else Err HeaderFault.Json) }
    {
        if complete(&tree) {
            Ok(Metadata { tree })
        } else {
            Err(HeaderFault::Json)
        }
    }

    /// Reads the metadata from the text of a JSON area.
    ///
    /// # Errors
    ///
    /// [`HeaderFault::Json`] if the text is not JSON in UTF-8, nests deeper than 127, or is not an
    /// object with objects `keyslots`, `segments` and `digests`; [`HeaderFault::Memory`] if memory
    /// ran out, and never for an empty text. There are no other faults.
    pub fn read(alloc: Global, text: &[u8]) -> Result<Metadata, HeaderFault>
        ensures ok { IfOk result (λ metadata. tree_of text.now ≡ Some metadata) }
        ensures json { result ≡ Err HeaderFault.Json → tree_of text.now ≡ None }
        ensures memory { result ≡ Err HeaderFault.Memory → 0 < length text.now }
        ensures only { IfErr result (λ fault.
            (fault ≡ HeaderFault.Json) ⊎ (fault ≡ HeaderFault.Memory)) }
    {
        match Value::from_slice(alloc, text) {
            Ok(tree) => Metadata::with_tree(tree),
            Err(error) => Err(fault_of(error)),
        }
    }

    /// The tree of JSON values.
    pub fn tree(&self) -> &Value
        ensures { data_of result.now ≡ self.now }
    {
        &self.tree
    }
}
