ghost use Rattle.std.specs.Prelude.{◌≡◌, ◌≤◌, ◌+◌, ◌*◌, ◌++◌, length, take, drop, replicate, false, IfOk};
ghost use Rattle.std.specs.List.{range_with_len};
ghost use Rattle.dch_pool.specs.Blocks.{overwritten};

use dch_bits::NoMemory;
use std::alloc::Global;

/// The octets of a block, where blocks of `size` octets stand one after another.
pub fn part(region: &[u8], size: usize, number: usize) -> &[u8]
    requires { number * size + size ≤ length region.now }
    ensures { result.now ≡ take size (drop (number * size) region.now) }
{
    let at = number * size;
    &region[at..at + size]
}

/// Writes zeros to a block.
pub fn clear(region: &mut [u8], size: usize, number: usize)
    requires { number * size + size ≤ length region.old }
    ensures { region.new ≡ take (number * size) region.old ++
        (replicate size 0 ++ drop (number * size + size) region.old) }
{
    let at = number * size;
    region[at..at + size].fill(0);
}

/// Writes octets to a block, from place `at` of it on.
pub fn overwrite(region: &mut [u8], size: usize, number: usize, at: usize, octets: &[u8])
    requires block { number * size + size ≤ length region.old }
    requires inside { at + length octets.now ≤ size }
    ensures { region.new ≡ take (number * size) region.old ++
        (overwritten (take size (drop (number * size) region.old)) at octets.now ++
        drop (number * size + size) region.old) }
{
    write_from(region, number * size + at, octets);
}

fn write_from(region: &mut [u8], from: usize, octets: &[u8])
    requires { from + length octets.now ≤ length region.old }
    ensures { region.new ≡ overwritten region.old from octets.now }
{
    region[from..from + octets.len()].copy_from_slice(octets);
}

/// So many numbers from 0 on, at most 65,536.
pub fn numbers(alloc: Global, count: usize) -> Result<Vec<u16>, NoMemory>
    requires { count ≤ 65536 }
    ensures { IfOk result (λ v. v.items ≡ range_with_len 0 count) }
{
    let mut numbers = Vec::new(alloc);
    for number in 0..count {
        match numbers.push(number as u16) {
            Ok(()) => {}
            Err(_) => return Err(NoMemory),
        }
    }
    Ok(numbers)
}

/// A flag for each of so many blocks, of which none is lent.
pub fn flags(alloc: Global, count: usize) -> Result<Vec<bool>, NoMemory>
    ensures { IfOk result (λ v. v.items ≡ replicate count false) }
{
    match vec![in alloc; false; count] {
        Ok(flags) => Ok(flags),
        Err(_) => Err(NoMemory),
    }
}

/// The octets of so many blocks.
pub fn octets(alloc: Global, blocks: usize, size: usize) -> Result<Vec<u8>, NoMemory>
    ensures { IfOk result (λ v. length v.items ≡ blocks * size) }
{
    let Some(count) = blocks.checked_mul(size) else {
        return Err(NoMemory);
    };
    match vec![in alloc; 0; count] {
        Ok(octets) => Ok(octets),
        Err(_) => Err(NoMemory),
    }
}
