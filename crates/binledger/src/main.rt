// The bin ledger over standard input and output: all the work is in `house::run`.
#![tactic(auto)]

use anyhow::anyhow;
use house::{MOST_BYTES, run};
use std::io::Read;

// One byte more than may be read shows that the input is too long. By `as`, since no `From` leads from `usize` to `u64`.
const READ: u64 = MOST_BYTES as u64 + 1;

fn answer(rt: &HostRuntime, text: &[u8]) -> anyhow::Result<()> {
    let out = run(rt.alloc(), text).map_err(|_| anyhow!("out of memory"))?;
    rt.print(out)?;
    Ok(())
}

fn main(rt: HostRuntime) -> anyhow::Result<()> {
    let mut text = Vec::new(rt.alloc());
    rt.stdin().take(READ).read_to_end(&mut text)?;
    answer(&rt, text.as_slice())
}
