// The loops over frames, exported for the benchmark alone: `bench` holds them against Rust's `fill`, `copy_within` and `==`.
#![tactic(auto)]

ghost use Rattle.std.specs.Prelude.{◌≡◌};
ghost use Rattle.frames.specs.Frame.{frame_in, zeros, put_frame, differing_in};

use frames::frame;

#[unsafe(no_mangle)]
pub extern "C" fn skorbilek_frame_zero(memory: &mut [u64], frame: usize)
    ensures { memory.new ≡ put_frame memory.old frame zeros }
{
    frame::zero(memory, frame);
}

#[unsafe(no_mangle)]
pub extern "C" fn skorbilek_frame_copy(memory: &mut [u64], from: usize, to: usize)
    ensures { memory.new ≡ put_frame memory.old to (frame_in memory.old from) }
{
    frame::copy(memory, from, to);
}

#[unsafe(no_mangle)]
pub extern "C" fn skorbilek_frame_differing(memory: &[u64], one: usize, two: usize) -> u64
    ensures { result ≡ differing_in memory.now one two }
{
    frame::differing(memory, one, two)
}
