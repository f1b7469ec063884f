// Runs of 64-bit words, of any length.
ghost use Rattle.std.specs.Prelude.{◌≡◌, length, replicate};
ghost use Rattle.words.specs.Run.{copied};

// Every word becomes zero.
pub fn zero(run: &mut [u64])
    ensures { run.new ≡ replicate (length run.old) 0 }
{
    run.fill(0);
}

// The front of `target` becomes `source`, or as much of it as there is room for.
pub fn copy(target: &mut [u64], source: &[u64])
    ensures { target.new ≡ copied target.old source.now }
{
    let n = target.len().min(source.len());
    target[..n].copy_from_slice(&source[..n]);
}
