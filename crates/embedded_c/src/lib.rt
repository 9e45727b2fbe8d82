// What a C program calls: the functions of `embedded`, exported. Each calls the function of its name there and says the same of it.
// Kept twice, and with as many parameters: the C interface needs it, and a crate is a library for others or one for C.
#![tactic(auto)]

ghost use Rattle.std.specs.Prelude.{◌≡◌};
ghost use Rattle.meaning.specs.Reading.{parse};
ghost use Rattle.embedded.specs.Checking.{checked_number};
ghost use Rattle.embedded.specs.Telling.{CallTells, EmbedTells};

// Any bytes are checked as a rule file.
#[unsafe(no_mangle)]
pub extern "C" fn pegplanet_check(file: &[u8]) -> u64
    ensures { result ≡ checked_number (parse file.now) }
{
    embedded::pegplanet_check(file)
}

// The whole call. The words of its result: end or refusal, place, answers, units, bytes, then zeros; as many as there is room for.
#[unsafe(no_mangle)]
pub extern "C" fn pegplanet_call(
    file: &[u8],
    cells: u32,
    steps: u32,
    work: u32,
    budget: u32,
    wanted: u32,
    scratch: &mut [u32],
    out: &mut [u8],
    res: &mut [u64],
)
    ensures { CallTells file.now (record { cells = cells; steps = steps; work = work }) budget wanted scratch.old out.old res.old scratch.new out.new res.new }
{
    embedded::pegplanet_call(file, cells, steps, work, budget, wanted, scratch, out, res);
}

// The embedded form. Of the output at most 4,000,000,000 bytes count as room.
#[unsafe(no_mangle)]
pub extern "C" fn pegplanet_run(file: &[u8], budget: u32, wanted: u32, out: &mut [u8]) -> u64
    ensures { EmbedTells file.now budget wanted out.old result out.new }
{
    embedded::pegplanet_run(file, budget, wanted, out)
}
