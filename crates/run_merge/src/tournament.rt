ghost use Rattle.std.specs.Prelude.{◌≡◌, ◌+◌, ◌*◌, ◌/◌, ◌<◌, ◌≤◌, ◌⊎◌, All, IfOk, OnOk, length};
ghost use Rattle.run_merge.specs.Cursors.{AreSound, cursors_of, ranks_of};
ghost use Rattle.run_merge.specs.Winners.{AreRightBut, AreTwice, AreWinners, IsAbove, PlayedAt, Precedes, PutsNumbers};

use crate::cursor::is_before;
use crate::run_reader::RunReader;
use std::alloc::Global;
use tb_types::Memory;

/// The winners among all runs: twice as many places as there are runs, whose second half are the runs' numbers.
pub fn winners_of(alloc: Global, readers: &[RunReader]) -> Result<Vec<usize>, Memory>
    requires { AreSound readers.now }
    ensures { IfOk result (λ winners. AreWinners (cursors_of readers.now) winners.items) }
{
    let mut winners = numbers_twice(alloc, readers.len())?;
    play_all(readers, &mut winners);
    Ok(winners)
}

// Puts the first of the two runs below each place there, from the last place down.
fn play_all(readers: &[RunReader], winners: &mut [usize])
    requires sound { AreSound readers.now }
    requires twice { AreTwice (length (cursors_of readers.now)) winners.old }
    ensures { AreWinners (cursors_of readers.now) winners.new }
{
    let mut place = readers.len();
    while place > 1 {
        place -= 1;
        play(readers, winners, place);
    }
}

// The numbers of so many runs, twice.
fn numbers_twice(alloc: Global, count: usize) -> Result<Vec<usize>, Memory>
    ensures { IfOk result (λ numbers. AreTwice count numbers.items) }
{
    let mut numbers = Vec::new(alloc);
    put_numbers(&mut numbers, count)?;
    put_numbers(&mut numbers, count)?;
    Ok(numbers)
}

// Puts the numbers of so many runs behind.
fn put_numbers(numbers: &mut Vec<usize>, count: usize) -> Result<(), Memory>
    ensures { OnOk result (PutsNumbers count numbers.old.items numbers.new.items) }
{
    for number in 0..count {
        numbers.push(number)?;
    }
    Ok(())
}

/// Sees to it that the winners are right again after an item of the run of this number was taken.
pub fn replay(readers: &[RunReader], winners: &mut [usize], number: usize)
    requires sound { AreSound readers.now }
    requires number { number < length (cursors_of readers.now) }
    requires right { AreRightBut (λ place. IsAbove place ((length (cursors_of readers.now) + number) / 2)) (length (cursors_of readers.now)) (ranks_of (cursors_of readers.now)) winners.old }
    ensures { AreWinners (cursors_of readers.now) winners.new }
{
    let mut place = (readers.len() + number) / 2;
    while place > 0 {
        play(readers, winners, place);
        place /= 2;
    }
}

// Puts the first of the two runs below a place there.
fn play(readers: &[RunReader], winners: &mut [usize], place: usize)
    requires sound { AreSound readers.now }
    requires within { 2 * place + 1 < length winners.old }
    requires each { All (λ number. number < length (cursors_of readers.now)) winners.old }
    ensures { PlayedAt place (ranks_of (cursors_of readers.now)) winners.old winners.new }
{
    winners[place] = first_of(readers, winners[2 * place], winners[2 * place + 1]);
}

// Whichever of two runs comes first.
fn first_of(readers: &[RunReader], a: usize, b: usize) -> usize
    requires sound { AreSound readers.now }
    requires a_within { a < length (cursors_of readers.now) }
    requires b_within { b < length (cursors_of readers.now) }
    ensures one { (result ≡ a) ⊎ (result ≡ b) }
    ensures a { Precedes (ranks_of (cursors_of readers.now)) result a }
    ensures b { Precedes (ranks_of (cursors_of readers.now)) result b }
{
    if a <= b {
        return first_in_order(readers, a, b);
    }
    first_in_order(readers, b, a)
}

// The same of two runs in order of their numbers.
fn first_in_order(readers: &[RunReader], a: usize, b: usize) -> usize
    requires sound { AreSound readers.now }
    requires order { a ≤ b }
    requires within { b < length (cursors_of readers.now) }
    ensures one { (result ≡ a) ⊎ (result ≡ b) }
    ensures a { Precedes (ranks_of (cursors_of readers.now)) result a }
    ensures b { Precedes (ranks_of (cursors_of readers.now)) result b }
{
    if is_before(readers[b].cursor.head, readers[a].cursor.head) {
        return b;
    }
    a
}
