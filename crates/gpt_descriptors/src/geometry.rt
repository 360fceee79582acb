ghost use Rattle.std.specs.Prelude.{◌≡◌, ◌+◌, ◌-◌, ◌*◌, ◌/◌, ◌<◌, ◌≤◌, ◌++◌, ◌↔◌, true, false, IsTrue, IsSome, IsNone, IfSome, IfNone, nat_lt, length, replicate};
ghost use Rattle.gpt_descriptors.specs.Sizes.{space_bytes, size_bytes, granule_number, place_in_word};
ghost use Rattle.gpt_descriptors.specs.Entries.{l0_entry};
ghost use Rattle.gpt_descriptors.specs.Level0.{is_l0_good, is_table, table_count};
ghost use Rattle.gpt_descriptors.specs.Places.{IsGeometry, IsWordName, Generation, Duty, Level1, Line, place_of, word_count, l0_words, l1_words, gen_place_of, l1_index_of, l1_place_of, line_place_of, l0_word_of, block_gpi_of};

use crate::entry::{L0Entry, decode_l0};
use crate::level0::count_tables;
use crate::setting::{REGION_BYTES, Setup};
use crate::size::Size;
use gpi_values::Gpi;
use std::marker::Model;

/// The geometry of the shared words: the setup, the processors and the L0 table, which together fix
/// the place of each word.
#[derive(Clone, Copy, Debug)]
pub struct Geometry {
    setup: Setup,
    cpus: u32,
    l1_tables: u64,
    l0: [u64; 64],
}

impl Model for Geometry {
    ghost use Rattle.gpt_descriptors.specs.Places.{GeometryData, IsGeometry};

    ghost Value = { GeometryData };

    ghost view = { λ a.
        record { setup = a.setup; cpus = a.cpus; l1_tables = a.l1_tables; l0 = a.l0 } };

    ghost invariant = { λ a. IsGeometry
        (record { setup = a.setup; cpus = a.cpus; l1_tables = a.l1_tables; l0 = a.l0 }) };

    ghost inverse = { λ g.
        record { setup = g.setup; cpus = g.cpus; l1_tables = g.l1_tables; l0 = g.l0 } };
}

impl Geometry {
    ghost use Rattle.gpt_descriptors.specs.Places.{GeometryData};

    /// The geometry of an L0 table that `l0_good` accepts, with at most 32 processors.
    pub fn new(setup: Setup, cpus: u32, l0: &[u64]) -> Geometry
        requires good { is_l0_good setup l0.now ≡ true }
        requires cpus { cpus ≤ 32 }
        ensures { result ≡ record {
          setup = setup;
          cpus = cpus;
          l1_tables = table_count l0.now;
          l0 = l0.now ++ replicate (64 - setup.gigabytes) 0;
        } }
    {
        let mut words = [0; 64];
        words[..setup.gigabytes() as usize].copy_from_slice(l0);
        Geometry {
            setup,
            cpus,
            l1_tables: count_tables(l0) as u64,
            l0: words,
        }
    }

    /// The setup of the protected space.
    pub fn setup(&self) -> Setup
        ensures value { result ≡ self.now.setup }
        ensures geometry { IsGeometry self.now }
    {
        self.setup
    }

    /// The number of processors, at most 32.
    pub fn cpus(&self) -> u32
        ensures value { result ≡ self.now.cpus }
        ensures range { result ≤ 32 }
    {
        self.cpus
    }

    /// The number of L1 tables in use, at most 16.
    pub fn l1_tables(&self) -> u64
        ensures value { result ≡ self.now.l1_tables }
        ensures range { result ≤ 16 }
    {
        self.l1_tables
    }

    /// The L0 words, one for each gigabyte of the protected space.
    pub fn l0(&self) -> &[u64]
        ensures { result.now ≡ l0_words self.now }
    {
        &self.l0[..self.setup.gigabytes() as usize]
    }

    /// The words of all L1 tables.
    fn l1_words(&self) -> u64
        ensures value { result ≡ l1_words self.now }
        ensures range { result ≤ 262144 }
    {
        self.l1_tables() * self.setup.table_words()
    }

    /// The number of shared words.
    pub fn words(&self) -> usize
        ensures { result ≡ word_count self.now }
    {
        (2 + 546 * self.setup.gigabytes() + self.cpus() as u64 + 2 * self.l1_words()) as usize
    }

    /// The place of the first generation of a size, after the locks and the generations of the
    /// smaller sizes.
    pub fn first_generation(&self, size: Size) -> usize
        ensures place { result ≡ place_of self.now (Generation size 0) }
        ensures range { result ≤ 40000 }
    {
        let gigabytes = self.setup.gigabytes();
        let start = match size {
            Size::Two => 2,
            Size::ThirtyTwo => 2 + 512 * gigabytes,
            Size::FiveTwelve => 2 + 544 * gigabytes,
        };
        start as usize
    }

    /// The place of the first duty word, after the locks and the generations.
    fn duty_start(&self) -> u64
        ensures value { result ≡ 2 + 546 * self.now.setup.gigabytes }
        ensures range { result ≤ 40000 }
    {
        2 + 546 * self.setup.gigabytes()
    }

    /// The place of the first L1 word, after the duty words.
    pub fn first_l1_word(&self) -> usize
        ensures place { result ≡ place_of self.now (Level1 0) }
        ensures range { result ≤ 50000 }
    {
        (self.duty_start() + self.cpus() as u64) as usize
    }

    /// The number of the granule of an address.
    pub fn granule(&self, pa: u64) -> u64
        ensures { result ≡ granule_number self.now.setup pa }
    {
        pa / self.setup.granule_bytes()
    }

    /// The place of the granule of an address in its L1 word, 0 to 15.
    pub fn place_in_word(&self, pa: u64) -> u64
        ensures place { result ≡ place_in_word self.now.setup pa }
        ensures range { result < 16 }
    {
        self.granule(pa) % 16
    }

    /// Whether this address is in the protected space.
    pub fn inside(&self, pa: u64) -> bool
        ensures { result ≡ nat_lt pa (space_bytes self.now.setup) }
    {
        pa / REGION_BYTES < self.setup.gigabytes()
    }

    /// The place of the generation of the block of this size around an address.
    pub fn gen_place(&self, size: Size, pa: u64) -> usize
        requires { pa < space_bytes self.now.setup }
        ensures place { result ≡ gen_place_of self.now size pa }
        ensures named { IsWordName self.now (Generation size (pa / size_bytes size)) }
    {
        self.first_generation(size) + (pa / size.bytes()) as usize
    }

    /// The place of the duty word of a processor.
    pub fn duty_place(&self, cpu: u32) -> usize
        requires { cpu < self.now.cpus }
        ensures { result ≡ place_of self.now (Duty cpu) }
    {
        (self.duty_start() + cpu as u64) as usize
    }

    /// The L0 word of an address.
    fn l0_word(&self, pa: u64) -> u64
        requires { pa < space_bytes self.now.setup }
        ensures word { result ≡ l0_word_of self.now pa }
        ensures known { IsSome (l0_entry (l0_word_of self.now pa)) }
    {
        self.l0[(pa / REGION_BYTES) as usize]
    }

    /// The address of the L1 table of an address, or `None` where its L0 entry is a block.
    fn table_of(&self, pa: u64) -> Option<u64>
        requires { pa < space_bytes self.now.setup }
        ensures found { IfSome result
            (λ table. l0_entry (l0_word_of self.now pa) ≡ Some (L0Entry.Table table)) }
        ensures none { IfNone result (is_table (l0_word_of self.now pa) ≡ false) }
    {
        match decode_l0(self.l0_word(pa)) {
            Some(L0Entry::Table(table)) => Some(table),
            Some(L0Entry::Block(_)) | None => None,
        }
    }

    /// The number of the L1 word of an address among all L1 words, by the address of its table: the
    /// tables follow one another from the base on.
    fn index_in_table(&self, table: u64, pa: u64) -> u64
        requires inside { pa < space_bytes self.now.setup }
        requires table { l0_entry (l0_word_of self.now pa) ≡ Some (L0Entry.Table table) }
        ensures value { Some result ≡ l1_index_of self.now pa }
        ensures within { result < l1_words self.now }
        ensures small { result < 262144 }
    {
        let setup = self.setup();
        let word = pa / setup.word_bytes();
        (table - setup.base()) / 8 + word % setup.table_words()
    }

    /// The number of the L1 word of an address among the L1 words of all tables, or `None` exactly
    /// where its L0 entry is a block.
    pub fn l1_index(&self, pa: u64) -> Option<u64>
        requires { pa < space_bytes self.now.setup }
        ensures value { result ≡ l1_index_of self.now pa }
        ensures within { IfSome result (λ i. i < l1_words self.now) }
        ensures small { IfSome result (λ i. i < 262144) }
        ensures table { IsSome result ↔ IsTrue (is_table (l0_word_of self.now pa)) }
    {
        match self.table_of(pa) {
            Some(table) => Some(self.index_in_table(table, pa)),
            None => None,
        }
    }

    /// The place of the L1 word of an address, or `None` exactly where its L0 entry is a block.
    pub fn l1_place(&self, pa: u64) -> Option<usize>
        requires { pa < space_bytes self.now.setup }
        ensures place { result ≡ l1_place_of self.now pa }
        ensures named { IfSome (l1_index_of self.now pa) (λ i. IsWordName self.now (Level1 i)) }
        ensures table { IsSome result ↔ IsTrue (is_table (l0_word_of self.now pa)) }
    {
        match self.l1_index(pa) {
            Some(index) => Some(self.first_l1_word() + index as usize),
            None => None,
        }
    }

    /// The place of the line word of an address, or `None` exactly where its L0 entry is a block.
    pub fn line_place(&self, pa: u64) -> Option<usize>
        requires { pa < space_bytes self.now.setup }
        ensures place { result ≡ line_place_of self.now pa }
        ensures named { IfSome (l1_index_of self.now pa) (λ i. IsWordName self.now (Line i)) }
        ensures table { IsSome result ↔ IsTrue (is_table (l0_word_of self.now pa)) }
    {
        let start = self.first_l1_word() + self.l1_words() as usize;
        match self.l1_index(pa) {
            Some(index) => Some(start + index as usize),
            None => None,
        }
    }

    /// The GPI of the L0 block around an address, or `None` exactly where its L0 entry is a table.
    pub fn block_gpi(&self, pa: u64) -> Option<Gpi>
        requires { pa < space_bytes self.now.setup }
        ensures value { result ≡ block_gpi_of self.now pa }
        ensures table { IsNone result ↔ IsTrue (is_table (l0_word_of self.now pa)) }
    {
        match decode_l0(self.l0_word(pa)) {
            Some(L0Entry::Block(gpi)) => Some(gpi),
            Some(L0Entry::Table(_)) | None => None,
        }
    }
}
