//! The other devices: the shell, the keyboard, the size of the screen, the clock; and a fault that is
//! counted.
use host_devices::size_in;
use mc_text::Path;
use rows_page::{Page, two_fields};
use tree_trait::{Clock, Sink, Source, Spawner, Tree};

/// A command behind its folder, with its status and what it wrote.
pub fn tell_command<P: Spawner>(page: &mut Page, shell: &mut P, row: &str) {
    let (folder, command) = two_fields(row, ' ');
    page.tell(format_args!("{row} = "));
    match Path::parse(page.alloc(), folder) {
        Ok(folder) => tell_run(page, shell, &folder, command),
        Err(_error) => page.fail(),
    }
    page.put("\n");
}

fn tell_run<P: Spawner>(page: &mut Page, shell: &mut P, folder: &Path, command: &str) {
    match shell.run(page.alloc(), folder, command) {
        Ok(outcome) => {
            page.tell(format_args!("{}: ", outcome.status));
            tell_output(page, outcome.output.0.as_slice());
        }
        Err(error) => page.tell(format_args!("{error:?}, faults {}", shell.faults())),
    }
}

/// An output; of a long one its length, and whether all of it is zeros.
fn tell_output(page: &mut Page, output: &[u8]) {
    if output.len() < 100 {
        return tell_text(page, output);
    }
    let zeros = output.iter().all(|byte| *byte == 0);
    let kind = if zeros { "zeros" } else { "bytes" };
    page.tell(format_args!("{} {kind}", output.len()));
}

fn tell_text(page: &mut Page, bytes: &[u8]) {
    let text = std::str::from_utf8(bytes).unwrap_or("no text");
    page.tell(format_args!("{text:?}"));
}

/// The sync of a folder that Linux can't sync, and whose error has no name here: a fault, which is counted.
pub fn tell_fault<T: Tree>(page: &mut Page, tree: &mut T) {
    match Path::parse(page.alloc(), "/proc") {
        Ok(folder) => tell_fault_of(page, tree, &folder),
        Err(_error) => page.fail(),
    }
}

fn tell_fault_of<T: Tree>(page: &mut Page, tree: &mut T, folder: &Path) {
    let before = tree.faults();
    let answer = tree.sync_folder(page.alloc(), folder);
    let after = tree.faults();
    page.tell(format_args!("sync_folder /proc = {answer:?}, faults {before} and {after}\n"));
}

/// What the keyboard gives, at most three bytes at a time, to its end. It is no terminal, so before each it
/// doesn't say which byte is the next one.
pub fn tell_keyboard<K: Source>(page: &mut Page, keys: &mut K) {
    page.put("keyboard");
    for next in [b'a', b'd', b'\n', 0] {
        page.tell(format_args!(" {} ", keys.next_is(next)));
        tell_taken(page, keys);
    }
    page.tell(format_args!(", faults {}\n", keys.faults()));
}

fn tell_taken<K: Source>(page: &mut Page, keys: &mut K) {
    let mut into = [0u8; 3];
    match keys.take(&mut into) {
        Ok(count) => tell_text(page, &into[..count]),
        Err(_error) => page.fail(),
    }
}

/// What the screen says of its size: nothing, since the input is no terminal.
pub fn tell_screen<S: Sink>(page: &mut Page, screen: &mut S) {
    let size = screen.size();
    page.tell(format_args!("screen size {size:?}, faults {}\n", screen.faults()));
}

/// The lines and columns in what `stty size` might say.
pub fn tell_size(page: &mut Page, said: &str) {
    page.tell(format_args!("stty size {said:?} = {:?}\n", size_in(said)));
}

/// Whether the clock stands after November 2023.
pub fn tell_clock<C: Clock>(page: &mut Page, clock: &C) {
    page.put(if clock.now() > 1_700_000_000 {
        "the clock is set\n"
    } else {
        "the clock is not set\n"
    });
}
