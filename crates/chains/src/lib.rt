// Chains of blocks under a key that is expanded once: what a block costs, without the cost of a call and of an
// expansion. For the benchmark alone: a static library of its own, which is not installed.
#![tactic(auto)]

ghost use Rattle.aes.specs.Calls.{BlockAnswer};
ghost use Rattle.chains.specs.Chains.{chain_under};

// Puts the block through Enc, or Dec, `count` times in place, and gives the number. (The C interface: the flag, and a
// number and not a Result.)
#[unsafe(no_mangle)]
pub extern "C" fn conguraha_aes_chain(
    key: &[u8],
    decrypting: bool,
    block: &mut [u8; 16],
    count: usize,
) -> u8
    ensures { BlockAnswer key.now (chain_under key.now decrypting count block.old) result block.new }
{
    let Ok(schedule) = aes::expand(key) else {
        // Under a refused key each application gives zero bytes.
        if count > 0 {
            *block = [0; 16];
        }
        return 1;
    };
    for _ in 0..count {
        *block = if decrypting {
            schedule.decrypt(*block)
        } else {
            schedule.encrypt(*block)
        };
    }
    0
}
