//! Where a literal ends.
ghost use Rattle.std.specs.Prelude.{◌≡◌, ◌<◌, IfSome, length};
ghost use Rattle.cob_lex.specs.Literals.{closing};

/// Returns how many bytes stand before the closing quotation mark: two together are not one.
pub(crate) fn closing(bytes: &[u8]) -> Option<usize>
    ensures closing { result ≡ closing bytes.now }
    ensures within { IfSome result (λ inside. inside < length bytes.now) }
{
    let mut inside = 0;
    let mut rest = bytes;
    while !rest.is_empty() {
        let behind = match rest {
            [b'"', b'"', ..] => 2,
            [b'"', ..] => return Some(inside),
            _ => 1,
        };
        inside += behind;
        rest = &rest[behind..];
    }
    None
}
