//! Places for what is remembered of keys. One may be empty, and is then as if it were not there: so places can be made
//! before anything changes.

ghost use Rattle.std.specs.Prelude.{◌≡◌, Some, OnOk, if◌then◌else◌};
ghost use Rattle.std.specs.Ordering.{is_eq};
ghost use Rattle.hn_watch.specs.Places.{held, HasPlace};

use hn_base::NoMemory;
use std::collections::BTreeMap;

pub(crate) type Places<K, V> = BTreeMap<K, Option<V>>;

/// What is at a key.
pub(crate) fn held<K: Ord, V: Copy>(places: &Places<K, V>, key: &K) -> Option<V>
    ensures { result ≡ held K.cmp places.now key.now }
{
    match places.get(key) {
        Some(place) => *place,
        None => None,
    }
}

/// Makes a place for a key that has none, an empty one.
pub(crate) fn make_place<K: Ord + Drop, V: Drop>(
    places: &mut Places<K, V>,
    key: K,
) -> Result<(), NoMemory>
    ensures same { (q : K) → held K.cmp places.new q ≡ held K.cmp places.old q }
    ensures made { OnOk result (HasPlace K.cmp places.new key) }
    ensures stays { (q : K) → HasPlace K.cmp places.old q → HasPlace K.cmp places.new q }
{
    if !places.contains_key(&key) {
        places.insert(key, None)?;
    }
    Ok(())
}

/// Puts a value where the key has a place. Never allocates.
pub(crate) fn put<K: Ord + Drop, V: Drop>(places: &mut Places<K, V>, key: K, value: V)
    requires { HasPlace K.cmp places.old key }
    ensures held { (q : K) → held K.cmp places.new q ≡ (if is_eq (K.cmp key q) then Some value else held K.cmp places.old q) }
    ensures stays { (q : K) → HasPlace K.cmp places.old q → HasPlace K.cmp places.new q }
{
    let _ = places.insert(key, Some(value));
}
