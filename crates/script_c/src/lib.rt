// The static library for a program in C or Rust: `run` of the crate `script` under its exported name, with the same promises.
#![tactic(auto)]

ghost use Rattle.std.specs.Prelude.{◌≡◌};
ghost use Rattle.script.specs.Run.{run_number, output_after};

// Runs a script: the refusal, 0 for a run, times 1,000,000, plus the written length. Nothing is asked of the two slices.
#[unsafe(no_mangle)]
pub extern "C" fn run(script: &[u8], out: &mut [u8]) -> u64
    ensures number { result ≡ run_number script.now out.old }
    ensures output { out.new ≡ output_after script.now out.old }
{
    script::run::run(script, out)
}
