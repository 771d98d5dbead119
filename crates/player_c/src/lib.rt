// The archive for firmware in C: the calls of crate player under their C names. include/dcf.h declares them.
#![tactic(auto)]

ghost use Rattle.player.specs.Call.{Told};

// Reads a file for a player. The answer gets the reading and the rows counted; where the file is refused it stays as it is.
#[unsafe(no_mangle)]
pub extern "C" fn dcf_read(file: &[u8], answer: &mut [u8]) -> u32
    ensures { Told file.now answer.old result answer.new }
{
    player::dcf_read(file, answer)
}
