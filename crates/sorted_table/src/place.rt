// What a table is made of.

// A key and the value under it.
#[derive(Clone, Copy, Debug, PartialEq, Eq)]
pub struct Place<K, V> {
    pub key: K,
    pub value: V,
}
