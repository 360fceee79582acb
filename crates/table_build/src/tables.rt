ghost use Rattle.std.specs.Prelude.{◌≡◌};

use gpt_descriptors::Setup;
use std::marker::Model;

/// Granule protection tables: the level 0 words, one for each gigabyte, and the words of all
/// level 1 tables, one table after another.
#[derive(Debug, Drop)]
pub struct Tables {
    setup: Setup,
    l0: Vec<u64>,
    l1: Vec<u64>,
}

impl Model for Tables {
    ghost use Rattle.table_build.specs.TableData.{TableData, AreTables};

    ghost Value = { TableData };

    ghost view = { λ a. record { setup = a.setup; l0 = a.l0.items; l1 = a.l1.items } };

    ghost invariant = { λ a. AreTables
        (record { setup = a.setup; l0 = a.l0.items; l1 = a.l1.items }) };
}

impl Tables {
    ghost use Rattle.table_build.specs.TableData.{TableData, AreTables};

    /// Tables of words that fit each other and the setup.
    pub fn new(setup: Setup, l0: Vec<u64>, l1: Vec<u64>) -> Tables
        requires { AreTables (record { setup = setup; l0 = l0.items; l1 = l1.items }) }
        ensures { result ≡ record { setup = setup; l0 = l0.items; l1 = l1.items } }
    {
        Tables { setup, l0, l1 }
    }

    /// The setup of the protected space.
    pub fn setup(&self) -> &Setup
        ensures setup { result.now ≡ self.now.setup }
        ensures tables { AreTables self.now }
    {
        &self.setup
    }

    /// The level 0 words.
    pub fn l0(&self) -> &[u64]
        ensures words { result.now ≡ self.now.l0 }
        ensures tables { AreTables self.now }
    {
        &self.l0
    }

    /// The level 1 words.
    pub fn l1(&self) -> &[u64]
        ensures words { result.now ≡ self.now.l1 }
        ensures tables { AreTables self.now }
    {
        &self.l1
    }
}
