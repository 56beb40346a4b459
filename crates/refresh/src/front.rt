// A copy to the front of lent bytes.
ghost use Rattle.std.specs.Prelude.{◌≡◌, ◌≤◌, length};
ghost use Rattle.record.specs.Reader.{front};

// Copies the source to the front of the output; the rest of the output stays as it was. The library's `copy_from_slice` is no choice: the archive for C
// would need `memmove` from outside.
pub fn copy_front(source: &[u8], output: &mut [u8])
    requires { length source.now ≤ length output.old }
    ensures { output.new ≡ front source.now output.old }
{
    for i in 0..source.len() {
        output[i] = source[i];
    }
}
