// The index of class names: 512 places that hold class numbers, each class at its name's home or the next free place after it.
#![tactic(auto)]

ghost use Rattle.std.specs.Prelude.{◌≡◌, ◌<◌, false, length, replicate, set};
ghost use Rattle.spec.specs.Index.{home, next_place, free_from, found_from, found_in, names_index};
ghost use Rattle.sheets.specs.Sheets.{count, groups};
ghost use Rattle.theory.specs.Claims.{Held};
ghost use Rattle.names.specs.Names.{met_before};

use fingerprints::fingerprint;
use records::CLASS_LIMIT;
use sheets::Sheets;

/// How many places the index has.
pub const PLACES: usize = 512;

// What an empty place holds.
const FREE: u16 = 65535;

// The place where a name is looked for first.
#[tactic(auto, unfolding(spec::specs::Index::home))]
fn home(name: &[u8]) -> usize
    ensures { result ≡ home name.now }
{
    fingerprint(name) as usize % PLACES
}

// The place after a place, going round.
#[tactic(auto, unfolding(spec::specs::Index::next_place))]
fn next_place(place: usize) -> usize
    requires { place < 512 }
    ensures { result ≡ next_place place }
{
    (place + 1) % PLACES
}

// The first free place from a home on.
fn free_from(row: &[u16], home: usize) -> usize
    requires long { length row.now ≡ 512 }
    requires low { home < 512 }
    ensures { result ≡ free_from row.now 512 home }
{
    let mut place = home;
    for _ in 0..PLACES {
        if row[place] == FREE {
            break;
        }
        place = next_place(place);
    }
    place
}

// A class enters, by its name's home.
fn enter(row: &mut [u16], class: usize, home: usize)
    requires long { length row.old ≡ 512 }
    requires low { home < 512 }
    requires few { class < 65535 }
    ensures { row.new ≡ set row.old (free_from row.old 512 home) class }
{
    let place = free_from(row, home);
    row[place] = class as u16;
}

// The class of that name among those from a home on, up to a free place.
fn find_from(sheets: &Sheets, row: &[u16], home: usize, name: &[u8]) -> Option<usize>
    requires held { Held (count sheets.now) row.now }
    requires low { home < 512 }
    ensures { result ≡ found_from (groups sheets.now) row.now name.now 512 home }
{
    let mut place = home;
    for _ in 0..PLACES {
        if row[place] == FREE {
            return None;
        }
        let class = usize::from(row[place]);
        if sheets.group(class).name() == name {
            return Some(class);
        }
        place = next_place(place);
    }
    None
}

/// The class of that name, through the index.
pub fn find(sheets: &Sheets, row: &[u16], name: &[u8]) -> Option<usize>
    requires { Held (count sheets.now) row.now }
    ensures { result ≡ found_in (groups sheets.now) row.now name.now }
{
    find_from(sheets, row, home(name), name)
}

/// Empties the row; then each class of both sheets enters, in the order of the numbers.
pub fn fill(sheets: &Sheets, row: &mut [u16])
    requires { length row.old ≡ 512 }
    ensures { row.new ≡ names_index sheets.now.library sheets.now.user }
{
    row.fill(FREE);
    for class in 0..sheets.count() {
        enter(row, class, home(sheets.group(class).name()));
    }
}

/// Marks each class whose name one before it has, in either sheet: a name is looked for before its own class enters.
pub fn mark_met(sheets: &Sheets, met: &mut [bool; CLASS_LIMIT])
    requires unmarked { met.old ≡ replicate 256 false }
    ensures { met.new ≡ met_before (groups sheets.now) (count sheets.now) }
{
    let mut row = [FREE; PLACES];
    for (class, entry) in met[..sheets.count()].iter_mut().enumerate() {
        let name = sheets.group(class).name();
        let home = home(name);
        *entry = find_from(sheets, &row, home, name).is_some();
        enter(&mut row, class, home);
    }
}

/// The same row, handed out.
pub fn met(sheets: &Sheets) -> [bool; CLASS_LIMIT]
    ensures { result ≡ met_before (groups sheets.now) (count sheets.now) }
{
    let mut met = [false; CLASS_LIMIT];
    mark_met(sheets, &mut met);
    met
}
