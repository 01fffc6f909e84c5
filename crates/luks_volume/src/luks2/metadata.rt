//! The JSON text of a volume of LUKS2 (LUKS2 On-Disk Format Specification 1.1, section 3).

ghost use Rattle.std.specs.Prelude.{◌≡◌, [], ◌∷◌, IfOk, OnOk, codes, length, map};
ghost use Rattle.luks_kdf.specs.Hash.{digest_len};
ghost use Rattle.luks_kdf.specs.Pbkdf2.{derived_key};
ghost use Rattle.luks_volume.specs.Members.{data_of};
ghost use Rattle.luks_volume.specs.Layout2.{ReadsBack, af_object, area_object, base64_value};
ghost use Rattle.luks_volume.specs.Layout2.{config_object, digest_object, json_of, kdf_object};
ghost use Rattle.luks_volume.specs.Layout2.{keyslot_object, keyslots_below, metadata_of};
ghost use Rattle.luks_volume.specs.Layout2.{names_below, segment_object, size_value};
ghost use Rattle.luks_volume.specs.Ranges2.{AreParameters2, FitsSlot2};
ghost use Rattle.serde_json.specs.Data.{array, member, no_members, object, put, string};
ghost use Rattle.serde_json.specs.View.{items_of, members_view, view};

use crate::luks2::areas::{area_size, area_start, slot_numbered};
use crate::luks2::members::{Content, decimal_value, object_of, put_members, put_object};
use crate::parameters::{Seal2, Slot2};
use crate::pieces::derived_key;
use serde_json::{Map, Value, json, put};
use std::alloc::{AllocError, Global};

/// Puts `af` into the key slot: how the key is split into stripes.
#[tactic(auto, unfolding(crate::specs::Layout2::af_object))]
fn put_af(alloc: Global, map: &mut Map<String, Value>, slot: &Slot2<'_>) -> Result<(), AllocError>
    ensures { OnOk result (members_view map.new.entries
        ≡ put (codes "af") (af_object slot.now) (members_view map.old.entries)) }
{
    put_object(
        alloc,
        map,
        "af",
        &[
            ("hash", Content::Text(slot.af_hash.name())),
            ("stripes", Content::Number(u64::from(slot.stripes))),
            ("type", Content::Text("luks1")),
        ],
    )
}

/// Puts `area` into the key slot: where the key material is, and how it is encrypted.
#[tactic(auto, using(crate::proofs::Bounds::bounds), unfolding(crate::specs::Layout2::area_object))]
fn put_area(
    alloc: Global,
    map: &mut Map<String, Value>,
    seal: &Seal2<'_>,
    slot: &Slot2<'_>,
) -> Result<(), AllocError>
    requires fits { AreParameters2 seal.now }
    requires slot { FitsSlot2 (length seal.now.key.now) slot.now }
    ensures { OnOk result (members_view map.new.entries
        ≡ put (codes "area") (area_object seal.now slot.now) (members_view map.old.entries)) }
{
    put_object(
        alloc,
        map,
        "area",
        &[
            ("encryption", Content::Encryption(seal.area_mode)),
            ("key_size", Content::Number(seal.area_key_size as u64)),
            ("offset", Content::Decimal(area_start(seal, slot.number))),
            (
                "size",
                Content::Decimal(area_size(seal.key.len(), slot.stripes)),
            ),
            ("type", Content::Text("raw")),
        ],
    )
}

/// Puts `kdf` into the key slot: how the key of the area is derived from the passphrase.
#[tactic(auto, unfolding(crate::specs::Layout2::kdf_object))]
fn put_kdf(alloc: Global, map: &mut Map<String, Value>, slot: &Slot2<'_>) -> Result<(), AllocError>
    ensures { OnOk result (members_view map.new.entries
        ≡ put (codes "kdf") (kdf_object slot.now) (members_view map.old.entries)) }
{
    put_object(
        alloc,
        map,
        "kdf",
        &[
            ("hash", Content::Text(slot.hash.name())),
            ("iterations", Content::Number(u64::from(slot.iterations))),
            ("salt", Content::Bytes(&slot.salt)),
            ("type", Content::Text("pbkdf2")),
        ],
    )
}

/// A key slot.
fn keyslot_object(alloc: Global, seal: &Seal2<'_>, slot: &Slot2<'_>) -> Result<Value, AllocError>
    requires fits { AreParameters2 seal.now }
    requires slot { FitsSlot2 (length seal.now.key.now) slot.now }
    ensures { IfOk result (λ value. view value ≡ keyslot_object seal.now slot.now) }
{
    let mut map = Map::new(alloc);
    put_keyslot(alloc, &mut map, seal, slot)?;
    Ok(Value::Object(map))
}

/// Puts the members of a key slot into an empty object.
#[tactic(auto, unfolding(crate::specs::Layout2::keyslot_object))]
fn put_keyslot(
    alloc: Global,
    map: &mut Map<String, Value>,
    seal: &Seal2<'_>,
    slot: &Slot2<'_>,
) -> Result<(), AllocError>
    requires fits { AreParameters2 seal.now }
    requires slot { FitsSlot2 (length seal.now.key.now) slot.now }
    requires empty { members_view map.old.entries ≡ no_members }
    ensures { OnOk result (object (members_view map.new.entries)
        ≡ keyslot_object seal.now slot.now) }
{
    put_af(alloc, map, slot)?;
    put_area(alloc, map, seal, slot)?;
    put_kdf(alloc, map, slot)?;
    put_members(
        alloc,
        map,
        &[
            ("key_size", Content::Number(seal.key.len() as u64)),
            ("priority", Content::Number(u64::from(slot.priority))),
            ("type", Content::Text("luks2")),
        ],
    )
}

/// All key slots, each under its number.
#[tactic(auto, unfolding(crate::specs::Layout2::keyslots_below))]
fn keyslots(alloc: Global, seal: &Seal2<'_>) -> Result<Map<String, Value>, AllocError>
    requires { AreParameters2 seal.now }
    ensures { IfOk result (λ map. members_view map.entries ≡ keyslots_below seal.now 32) }
{
    let mut map = Map::new(alloc);
    'slots: for number in 0..32 {
        if let Some(slot) = slot_numbered(seal, number) {
            let keyslot = keyslot_object(alloc, seal, slot)?;
            let name = number.to_string(alloc)?;
            put(&mut map, alloc, name.as_str(), keyslot)?;
        }
    }
    Ok(map)
}

/// The numbers of the key slots as strings, in ascending order.
#[tactic(auto, unfolding(crate::specs::Layout2::names_below))]
fn keyslot_names(alloc: Global, seal: &Seal2<'_>) -> Result<Vec<Value>, AllocError>
    requires { AreParameters2 seal.now }
    ensures { IfOk result (λ names. map view names.items ≡ names_below seal.now 32) }
{
    let mut names = Vec::new(alloc);
    'slots: for number in 0..32 {
        if slot_numbered(seal, number).is_some() {
            names.push(decimal_value(alloc, u64::from(number))?)?;
        }
    }
    Ok(names)
}

/// Puts the value of the volume key's digest into the object.
fn put_digest_value(
    alloc: Global,
    map: &mut Map<String, Value>,
    seal: &Seal2<'_>,
) -> Result<(), AllocError>
    requires { AreParameters2 seal.now }
    ensures { OnOk result (members_view map.new.entries ≡ put (codes "digest")
        (base64_value (derived_key seal.now.digest_hash seal.now.key.now seal.now.digest_salt
        seal.now.digest_iterations (digest_len seal.now.digest_hash)))
        (members_view map.old.entries)) }
{
    let digest = derived_key(
        alloc,
        seal.digest_hash,
        seal.key,
        &seal.digest_salt,
        seal.digest_iterations,
        seal.digest_hash.size(),
    )?;
    put_members(alloc, map, &[("digest", Content::Bytes(&digest))])
}

/// Puts the numbers of the segments into the digest.
fn put_segment_names(alloc: Global, map: &mut Map<String, Value>) -> Result<(), AllocError>
    ensures { OnOk result (members_view map.new.entries ≡ put (codes "segments")
        (array (items_of (string (codes "0") ∷ []))) (members_view map.old.entries)) }
{
    let names = json!(in alloc; ["0"])?;
    put(map, alloc, "segments", names)
}

/// The digest of the volume key, which all key slots hold.
fn digest_object(alloc: Global, seal: &Seal2<'_>) -> Result<Value, AllocError>
    requires { AreParameters2 seal.now }
    ensures { IfOk result (λ value. view value ≡ digest_object seal.now) }
{
    let mut map = Map::new(alloc);
    put_digest(alloc, &mut map, seal)?;
    Ok(Value::Object(map))
}

/// Puts the members of the digest into an empty object.
#[tactic(auto, unfolding(crate::specs::Layout2::digest_object))]
fn put_digest(
    alloc: Global,
    map: &mut Map<String, Value>,
    seal: &Seal2<'_>,
) -> Result<(), AllocError>
    requires fits { AreParameters2 seal.now }
    requires empty { members_view map.old.entries ≡ no_members }
    ensures { OnOk result (object (members_view map.new.entries) ≡ digest_object seal.now) }
{
    put_digest_value(alloc, map, seal)?;
    put(
        map,
        alloc,
        "keyslots",
        Value::Array(keyslot_names(alloc, seal)?),
    )?;
    put_segment_names(alloc, map)?;
    put_members(
        alloc,
        map,
        &[
            ("hash", Content::Text(seal.digest_hash.name())),
            (
                "iterations",
                Content::Number(u64::from(seal.digest_iterations)),
            ),
            ("salt", Content::Bytes(&seal.digest_salt)),
            ("type", Content::Text("pbkdf2")),
        ],
    )
}

/// The payload's length, or `dynamic` if it is not fixed.
fn size_value<'a>(fixed: bool, len: usize) -> Content<'a>
    ensures { data_of result ≡ size_value fixed len }
{
    if fixed {
        Content::Decimal(len as u64)
    } else {
        Content::Text("dynamic")
    }
}

/// Where the payload is, and how it is encrypted.
#[tactic(auto, unfolding(crate::specs::Layout2::segment_object))]
fn segment_object(alloc: Global, seal: &Seal2<'_>) -> Result<Value, AllocError>
    ensures { IfOk result (λ value. view value ≡ segment_object seal.now) }
{
    object_of(
        alloc,
        &[
            ("encryption", Content::Encryption(seal.mode)),
            ("iv_tweak", Content::Decimal(seal.iv_tweak)),
            ("offset", Content::Decimal(seal.offset)),
            (
                "sector_size",
                Content::Number(seal.sector_size.bytes() as u64),
            ),
            ("size", size_value(seal.fixed, seal.plain.len())),
            ("type", Content::Text("crypt")),
        ],
    )
}

/// Puts the lengths of the JSON area, and of the space for key material, into the metadata.
#[tactic(auto, using(crate::proofs::Bounds::limits), unfolding(crate::specs::Layout2::config_object))]
fn put_config(
    alloc: Global,
    map: &mut Map<String, Value>,
    seal: &Seal2<'_>,
) -> Result<(), AllocError>
    requires { AreParameters2 seal.now }
    ensures { OnOk result (members_view map.new.entries
        ≡ put (codes "config") (config_object seal.now) (members_view map.old.entries)) }
{
    put_object(
        alloc,
        map,
        "config",
        &[
            ("json_size", Content::Decimal(seal.hdr_size - 4096)),
            (
                "keyslots_size",
                Content::Decimal(seal.offset.saturating_sub(2 * seal.hdr_size)),
            ),
        ],
    )
}

/// All metadata.
fn metadata_of(alloc: Global, seal: &Seal2<'_>) -> Result<Value, AllocError>
    requires { AreParameters2 seal.now }
    ensures { IfOk result (λ value. view value ≡ metadata_of seal.now) }
{
    let mut map = Map::new(alloc);
    put_metadata(alloc, &mut map, seal)?;
    Ok(Value::Object(map))
}

/// Puts an object with just this value, under the number 0, into the metadata.
fn put_zeroth(
    alloc: Global,
    map: &mut Map<String, Value>,
    name: &str,
    value: Value,
) -> Result<(), AllocError>
    ensures { OnOk result (members_view map.new.entries ≡ put name.now
        (object (member (codes "0") (view value) no_members)) (members_view map.old.entries)) }
{
    let mut zeroth = Map::new(alloc);
    put(&mut zeroth, alloc, "0", value)?;
    put(map, alloc, name, Value::Object(zeroth))
}

/// Puts all metadata into an empty object.
#[tactic(auto, unfolding(crate::specs::Layout2::metadata_of))]
fn put_metadata(
    alloc: Global,
    map: &mut Map<String, Value>,
    seal: &Seal2<'_>,
) -> Result<(), AllocError>
    requires fits { AreParameters2 seal.now }
    requires empty { members_view map.old.entries ≡ no_members }
    ensures { OnOk result (object (members_view map.new.entries) ≡ metadata_of seal.now) }
{
    put_config(alloc, map, seal)?;
    put_zeroth(alloc, map, "digests", digest_object(alloc, seal)?)?;
    put(
        map,
        alloc,
        "keyslots",
        Value::Object(keyslots(alloc, seal)?),
    )?;
    put_zeroth(alloc, map, "segments", segment_object(alloc, seal)?)?;
    put(map, alloc, "tokens", Value::Object(Map::new(alloc)))
}

/// The JSON text.
#[tactic(auto, unfolding(crate::specs::Layout2::json_of))]
pub(crate) fn json_of(alloc: Global, seal: &Seal2<'_>) -> Result<Vec<u8>, AllocError>
    requires { AreParameters2 seal.now }
    ensures text { IfOk result (λ text. text.items ≡ json_of seal.now) }
    ensures reads_back { IfOk result (λ _. ReadsBack seal.now) }
{
    metadata_of(alloc, seal)?.to_vec(alloc)
}
