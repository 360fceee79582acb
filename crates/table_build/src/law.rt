ghost use Rattle.std.specs.Prelude.{◌≡◌, ◌<◌, ◌/◌, ℕ, List, Some, None, false, slice_get, slice_index};
ghost use Rattle.gpi_values.specs.declared.gpi.Gpi.{Gpi};
ghost use Rattle.gpt_descriptors.specs.declared.size.Size.{Size};
ghost use Rattle.gpt_descriptors.specs.declared.entry.L1Entry.{L1Entry};
ghost use Rattle.gpt_descriptors.specs.Sizes.{SetupData, space_granules, words_of, table_words};
ghost use Rattle.gpt_descriptors.specs.Entries.{l0_entry, l1_entry};
ghost use Rattle.gpt_descriptors.specs.Canonical.{canonical_word};
ghost use Rattle.gpt_descriptors.specs.Level0.{l1_index};
ghost use Rattle.gpt_descriptors.specs.Places.{block_gpi_in};
ghost use Rattle.region_plan.specs.declared.region.Region.{Region};
ghost use Rattle.region_plan.specs.Regions.{region_map, region_l0};
ghost use Rattle.region_plan.specs.Refusals.{refusal};
ghost use Rattle.table_build.specs.Built.{region_l1, is_bad_base};

/// The law of built tables: they mean the region map. A granule's L1 word, where its gigabyte has a
/// table, is the canonical word of the map at its place, else the L0 block there has the granule's
/// GPI; and a contiguous L1 word fills its aligned block with itself.
pub fn built_tables_mean_the_map()
    ensures words { (s : SetupData) (regions : List Region) (granule i : ℕ)
        → refusal s regions ≡ None → is_bad_base s regions ≡ false → granule < space_granules s
        → l1_index s (region_l0 s regions) (granule / 16) ≡ Some i
        → slice_get (region_l1 s regions) i
        ≡ Some (canonical_word s (region_map s regions) None (granule / 16)) }
    ensures blocks { (s : SetupData) (regions : List Region) (granule : ℕ)
        → refusal s regions ≡ None → is_bad_base s regions ≡ false → granule < space_granules s
        → l1_index s (region_l0 s regions) (granule / 16) ≡ None
        → block_gpi_in (l0_entry (slice_index (region_l0 s regions) (granule / 16 / table_words s)))
        ≡ Some (region_map s regions granule) }
    ensures fills { (s : SetupData) (regions : List Region) (i j word : ℕ) (z : Size) (gpi : Gpi)
        → slice_get (region_l1 s regions) i ≡ Some word
        → l1_entry word ≡ Some (L1Entry.Contig z gpi) → j / words_of s z ≡ i / words_of s z
        → slice_get (region_l1 s regions) j ≡ Some word }
{}
