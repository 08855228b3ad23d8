//! Writing lines. Lines are bytes and no text, since the bytes of a word need not be text.
ghost use Rattle.std.specs.Prelude.{◌≡◌, [], ◌∷◌, ◌++◌, map, OnOk};
ghost use Rattle.rules.specs.Artefact.{line};

use std::alloc::AllocError;

/// A field, and the byte that ends it.
pub fn put_field(out: &mut Vec<u8>, field: &[u8], end: u8) -> Result<(), AllocError>
    ensures { OnOk result (out.new.items ≡ out.old.items ++ (field.now ++ (end ∷ []))) }
{
    out.extend_from_slice(field)?;
    out.push(end)?;
    Ok(())
}

/// A line of fields, with single spaces between them.
pub fn put_line(out: &mut Vec<u8>, fields: &[&[u8]]) -> Result<(), AllocError>
    ensures { OnOk result (out.new.items ≡ out.old.items ++ line (map (λ f. f.now) fields.now)) }
{
    let Some((last, front)) = fields.split_last() else {
        return put_field(out, b"", b'\n');
    };
    for field in front {
        put_field(out, field, b' ')?;
    }
    put_field(out, last, b'\n')
}
