// The fields' names: 8 bytes each, filled with zero bytes.
#![tactic(auto)]

ghost use Rattle.std.specs.Prelude.{◌≡◌};
ghost use Rattle.names.specs.Names.{is_inner, may_follow, good_name, names_right};

// a to z, 0 to 9 or _
#[tactic(auto, unfolding(crate::specs::Names::is_inner))]
fn is_inner(b: u8) -> bool
    ensures { result ≡ is_inner b }
{
    b.is_ascii_lowercase() || b.is_ascii_digit() || b == b'_'
}

// Whether byte b may stand after byte a.
#[tactic(auto, unfolding(crate::specs::Names::may_follow))]
fn may_follow(a: u8, b: u8) -> bool
    ensures { result ≡ may_follow a b }
{
    b == 0 || (a != 0 && is_inner(b))
}

// Whether a letter stands first, and then what may follow.
#[tactic(auto, unfolding(crate::specs::Names::good_name))]
fn is_good(name: &[u8; 8]) -> bool
    ensures { result ≡ good_name name.now 0 }
{
    name[0].is_ascii_lowercase() && name.windows(2).all(|pair| may_follow(pair[0], pair[1]))
}

/// Whether every name is good and no name stands twice.
pub fn names_right(fields: &[u8]) -> bool
    ensures { result ≡ names_right fields.now }
{
    let (names, _) = fields.as_chunks::<8>();
    names
        .iter()
        .enumerate()
        .all(|(i, name)| is_good(name) && !names[..i].contains(name))
}
