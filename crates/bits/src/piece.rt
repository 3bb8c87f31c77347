// A piece, put into a lent buffer at a place.
ghost use Rattle.std.specs.Prelude.{◌≡◌, ◌+◌, ◌≤◌, length};
ghost use Rattle.std.proofs.lemmas.List.Edits.{sets};

// A place in a lent buffer, since the caller lends all the room at once: no heap, and `sets` in the clause is of the whole buffer.
pub fn put(out: &mut [u8], n: usize, piece: &[u8])
    requires { n + length piece.now ≤ length out.old }
    ensures { out.new ≡ sets out.old n piece.now }
{
    out[n..n + piece.len()].copy_from_slice(piece);
}
