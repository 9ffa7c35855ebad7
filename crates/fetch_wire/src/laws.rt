// Laws of sections.
ghost use Rattle.std.specs.Prelude.{◌≡◌, ◌∷◌, [], ℕ, List};
ghost use Rattle.hex.specs.Hex.{IsBytes};
ghost use Rattle.fetch_wire.specs.Bundles.{Bundle, SpellsBundle};
ghost use Rattle.fetch_wire.specs.Sections.{IsCode, Object, Sections, parts_of};
ghost use Rattle.fetch_wire.specs.SectionReadings.{EndsAs, ReadsAs, Tells, read_of};
ghost use Rattle.fetch_wire.specs.declared.part.Part.{Part};
ghost use Rattle.fetch_wire.specs.declared.part.Part.TheVariants.{Refused};
ghost use Rattle.fetch_wire.specs.declared.part.Which.{Which};

/// What spells a section is read as its parts up to the end, whatever stands behind it. So what
/// `write_part` wrote of a section's parts is read back.
pub fn sections_are_read_back()
    ensures { (which : Which) (bytes : List ℕ) (head : Part) (objects : List Object) (rest : List ℕ)
        → Sections bytes which head objects rest
        → ReadsAs which bytes (parts_of head objects) rest }
{}

/// A refusal is read in place of a section of any kind.
pub fn refusals_are_read_back()
    ensures { (which : Which) (code : ℕ) (rest : List ℕ) → IsCode code
        → ReadsAs which (82 ∷ code ∷ rest) (Refused code ∷ []) rest }
{}

/// What is read of any bytes is what they spell: the parts of a section so far, with what stands of
/// the next one; or those up to its end, with the rest; or those before a broken unit.
pub fn what_is_read_is_spelled()
    ensures { (which : Which) (bytes : List ℕ) → IsBytes bytes
        → Tells which bytes (read_of which bytes).items (read_of which bytes).place }
{}

/// What is read up to its end is a section, or a refusal, with what stands behind it.
pub fn what_is_read_to_the_end_is_a_section()
    ensures { (which : Which) (bytes : List ℕ) (parts : List Part) (rest : List ℕ) → IsBytes bytes
        → ReadsAs which bytes parts rest → EndsAs which bytes parts rest }
{}

/// Bytes are at most one bundle.
pub fn bundles_have_one_reading()
    ensures { (bytes : List ℕ) (a b : Bundle) → SpellsBundle a bytes → SpellsBundle b bytes
        → a ≡ b }
{}

/// No section's spelling begins another, and a section is spelled in one way.
pub fn no_section_begins_another()
    ensures { (which : Which) (bytes : List ℕ) (a b : Part) (xs ys : List Object) (r q : List ℕ)
        → Sections bytes which a xs r → Sections bytes which b ys q
        → (a ≡ b) × (xs ≡ ys) × (r ≡ q) }
{}
