//! Names in lists.
ghost use Rattle.std.specs.Prelude.{◌≡◌, map, string_bytes};
ghost use Rattle.std.specs.Str.{bytes_eq};
ghost use Rattle.mls_differences.specs.Counterparts.{is_among};

/// Whether two texts are the same.
pub(crate) fn is_same(one: &str, other: &str) -> bool
    ensures { result ≡ bytes_eq one.now other.now }
{
    one.as_bytes() == other.as_bytes()
}

/// Whether a name is one of others.
pub(crate) fn is_among(others: &[String], name: &str) -> bool
    ensures { result ≡ is_among (map string_bytes others.now) name.now }
{
    for other in others {
        if is_same(name, other.as_str()) {
            return true;
        }
    }
    false
}
