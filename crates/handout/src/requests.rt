// Requests in their byte layout: a count, then a 2-byte field number each.
ghost use Rattle.std.specs.Prelude.{◌≡◌, ◌+◌, ◌≤◌, ◌<◌, ◌↔◌, true, length, IsSome, IfSome};
ghost use Rattle.handout.specs.Requests.{asked_count, request_length, field_asked, request_right};

/// A request whose size, count and field numbers are right for so many fields.
#[derive(Clone, Copy)]
pub struct Request<'a> {
    pub bytes: &'a [u8],
    pub fields: usize,
    pub ghost right: { request_right fields bytes.now ≡ true },
}

impl<'a> Request<'a> {
    /// The test: these bytes, if they are a right request.
    pub fn new(bytes: &'a [u8], fields: usize) -> Option<Self>
        ensures right { IsSome result ↔ (request_right fields bytes.now ≡ true) }
        ensures same { IfSome result (λ r. (r.bytes.now ≡ bytes.now) × (r.fields ≡ fields)) }
    {
        if right(bytes, fields) {
            Some(Request { bytes, fields })
        } else {
            None
        }
    }

    /// How many fields it asks for.
    pub fn count(&self) -> usize
        ensures asked { result ≡ asked_count self.now.bytes.now }
        ensures few { result ≤ 64 }
    {
        count(self.bytes)
    }

    /// The field number at a position.
    pub fn field(&self, position: usize) -> usize
        requires { position < asked_count self.now.bytes.now }
        ensures asked { result ≡ field_asked self.now.bytes.now position }
        ensures known { result < self.now.fields }
        ensures word { result < 65536 }
    {
        field_at(self.bytes, position)
    }
}

/// What the first two bytes say.
pub fn count(bytes: &[u8]) -> usize
    requires { 2 ≤ length bytes.now }
    ensures asked { result ≡ asked_count bytes.now }
    ensures word { result < 65536 }
{
    basis::word(bytes, 0) as usize
}

/// The field number at a position of bytes that are as long.
pub fn field_at(bytes: &[u8], position: usize) -> usize
    requires { request_length (position + 1) ≤ length bytes.now }
    ensures asked { result ≡ field_asked bytes.now position }
    ensures word { result < 65536 }
{
    basis::word(bytes, 2 + position * 2) as usize
}

// Whether the size, the count and the field numbers are right for so many fields.
fn right(bytes: &[u8], fields: usize) -> bool
    ensures { result ≡ request_right fields bytes.now }
{
    if bytes.len() < 2 {
        return false;
    }
    let count = count(bytes);
    if bytes.len() != 2 + count * 2 || 64 < count {
        return false;
    }
    (0..count).all(|position| field_at(bytes, position) < fields)
}
