// Runs the phase king many times over, for a tool that counts instructions from outside: `bench 16 5` for 16 replicas, 5 faulty.
#![tactic(auto)]

ghost use Rattle.std.specs.Prelude.{◌*◌, ◌<◌, ◌≤◌};

use anyhow::anyhow;
use layers::king::PhaseKing;
use layers::layer::{Instance, Layer};
use quorum::is_set;
use std::alloc::{AllocError, Global};
use std::env;

const INSTANCES: usize = 3000;

const SPARE: usize = 512;

// Words that look random, of which about half say something; `cycles` has the same, since no library that both know is fit for it.
fn noise(heap: Global, size: usize) -> Result<Vec<u8>, AllocError> {
    (0..size)
        .scan(1, |seed: &mut u32, _| {
            *seed = seed.wrapping_mul(1664525).wrapping_add(1013904223);
            Some((*seed >> 29) as u8 / 2)
        })
        .collect(heap)
}

// Every third replica of the first n is faulty, f of them in all, from another one on in each instance.
fn marks_of(n: usize, f: usize, instance: usize) -> u16
    requires { (0 < n) × (n ≤ 16) }
{
    let mut marks: u16 = 0;
    for k in 0..f {
        let replica = (instance % n + 3 * (k % n)) % n;
        marks |= 1 << replica;
    }
    marks
}

// Whether the sound replicas got different bits.
fn is_split(got: u16, sound: u16) -> bool {
    got & sound != 0 && got & sound != sound
}

// Whether a sound sender's bit did not reach the sound replicas.
fn is_lost(got: u16, sound: u16, sender: usize, bit: bool) -> bool {
    let wanted = if bit { sound } else { 0 };
    is_set(sound, sender) && got & sound != wanted
}

// How many instances were split, and in how many a sound sender's bit was lost.
fn run(n: usize, f: usize, words: &[u8]) -> (u32, u32)
    requires { (n ≤ 16) × (3 * f < n) }
{
    let all = u16::MAX >> (16 - n);
    let mut split: u32 = 0;
    let mut lost: u32 = 0;
    for k in 0..INSTANCES {
        let from = k % SPARE;
        if from < words.len() {
            let sender = k % n;
            let bit = k % 3 == 0;
            let marks = marks_of(n, f, k);
            let got = PhaseKing.deliver(&Instance {
                n,
                f,
                marks,
                sender,
                bit,
                words: &words[from..],
            });
            split = split.saturating_add(is_split(got, all & !marks) as u32);
            lost = lost.saturating_add(is_lost(got, all & !marks, sender, bit) as u32);
        }
    }
    (split, lost)
}

fn main(rt: HostRuntime) -> anyhow::Result<()> {
    let mut args = env::args(&rt)?.skip(1);
    let (Some(n), Some(f)) = (args.next(), args.next()) else {
        return Err(anyhow!("usage: bench REPLICAS FAULTY"));
    };
    let n = n.parse::<usize>()?;
    let f = f.parse::<usize>()?;
    if n > 16 || f > 5 || 3 * f >= n {
        return Err(anyhow!("at most 16 replicas, and fewer than a third of them faulty"));
    }
    let size = PhaseKing.size(n, f);
    let words = noise(rt.alloc(), size.saturating_add(SPARE))?;
    let (split, lost) = run(n, f, &words);
    println!(rt; "{INSTANCES} instances of {size} bytes, {split} split, {lost} lost")?;
    Ok(())
}
