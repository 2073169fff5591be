// A case: its sheets, how much is lent and what is expected, as the commands before have set them.
use crate::by_name::PLACES;
use crate::judging::{ROW, SCRATCH};
use crate::sheet::{spelled, verdicts};
use arrayvec::ArrayVec;

const SHEET: usize = 65536;

pub(crate) type Sheet = ArrayVec<u8, SHEET>;

#[derive(Clone, Copy)]
pub(crate) enum Begun {
    Library,
    User,
}

#[derive(Drop)]
pub(crate) struct Case {
    pub(crate) library: Sheet,
    pub(crate) user: Sheet,
    pub(crate) used: usize,
    // The whole user buffer once `fill_buffer` has put the user sheet there: past its end stands what earlier ones left.
    pub(crate) buffer: [u8; SHEET],
    // Which sheet is appended to.
    begun: Begun,
    // How many bytes of the row and of the scratch are lent.
    pub(crate) row: usize,
    pub(crate) scratch: usize,
    // How many places of a row of class numbers are lent.
    pub(crate) places: usize,
    pub(crate) expected: ArrayVec<u8, ROW>,
}

// Copies a sheet to the buffer's start, as far as it fits.
fn copied(buffer: &mut [u8], sheet: &[u8]) {
    for (to, from) in buffer.iter_mut().zip(sheet) {
        *to = *from;
    }
}

impl Case {
    pub(crate) fn new() -> Self {
        Case {
            library: ArrayVec::new(),
            user: ArrayVec::new(),
            used: 0,
            buffer: [0; SHEET],
            begun: Begun::Library,
            row: ROW,
            scratch: SCRATCH,
            places: PLACES,
            expected: ArrayVec::new(),
        }
    }

    // Enough is lent again, and nothing is expected. The sheets stay.
    pub(crate) fn begin(&mut self) {
        self.row = ROW;
        self.scratch = SCRATCH;
        self.places = PLACES;
        self.expected.clear();
    }

    pub(crate) fn begin_library(&mut self, words: &[u8]) {
        self.begun = Begun::Library;
        self.library.clear();
        self.append(words, spelled);
    }

    pub(crate) fn begin_user(&mut self, words: &[u8]) {
        self.begun = Begun::User;
        self.fill_buffer();
        self.user.clear();
        self.append(words, spelled);
    }

    // Writes at the end of the sheet that was last begun. All of the user buffer is then used.
    pub(crate) fn append<F: FnOnce(&mut Sheet, &[u8])>(&mut self, words: &[u8], write: F)
        requires { F.IsAlwaysCallable write }
    {
        match self.begun {
            Begun::Library => write(&mut self.library, words),
            Begun::User => {
                write(&mut self.user, words);
                self.used = self.user.len();
            }
        }
    }

    pub(crate) fn fill_buffer(&mut self) {
        copied(&mut self.buffer, &self.user);
    }

    pub(crate) fn expect(&mut self, words: &[u8]) {
        self.expected.clear();
        verdicts(&mut self.expected, words);
    }
}
