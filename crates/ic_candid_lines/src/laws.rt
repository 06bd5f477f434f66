//! What holds of the definitions whatever the input: each function does nothing, and its contract is
//! the law.

ghost use Rattle.std.specs.Prelude.{◌≡◌, true, false, codes, List, ℕ, Ok, Err};
ghost use Rattle.cd_types.specs.declared.entry.TyRef.{TyRef};
ghost use Rattle.cd_types.specs.declared.entry.Entry.{Entry};
ghost use Rattle.cd_codec.specs.Content.{Content};
ghost use Rattle.cd_codec.specs.IsHeader.{IsHeader};
ghost use Rattle.cd_coerce.specs.declared.fault.DidlFault.{DidlFault};
ghost use Rattle.cd_coerce.specs.Decodes.{Decodes, HasFault};
ghost use Rattle.cd_text.specs.Whole.{Said};
ghost use Rattle.cd_grammar.specs.File.{File};
ghost use Rattle.cd_grammar.specs.Grammar.{IsFile};
ghost use Rattle.cd_did.specs.declared.fault.Interface.{Interface};
ghost use Rattle.cd_did.specs.Interfaces.{Upgrades};
ghost use Rattle.cd_did.specs.InterfaceOf.{interface_in};
ghost use Rattle.ic_candid_lines.specs.Decoding.{Types, decode_text, show_text, decoded_text, shown_text, refused_text, bad_expected_text};
ghost use Rattle.ic_candid_lines.specs.Encoding.{encode_text, encoded_text, not_text};
ghost use Rattle.ic_candid_lines.specs.declared.upgrading.Lack.{Lack as SomeLack};
ghost use Rattle.ic_candid_lines.specs.declared.upgrading.Lack.TheVariants.{NotInterface};
ghost use Rattle.ic_candid_lines.specs.Upgrading.{served, FileSays, verdict_text, bad_text, upgrade_text};

use cd_coerce::laws::one_answer;
use cd_did::laws::texts_say;
use cd_sub::laws::decided;

/// What a `decode` line prints, by the grammar of headers and the rules of decoding.
pub fn decode_prints()
    // A header with nothing after it gives the types, and what the message decodes to is printed,
    ensures decoded { (expected : Types) (header message : List ℕ) (values : List Content) → IsHeader false expected.0 expected.1 header
        → Decodes expected message values → decode_text header message ≡ decoded_text expected values }
    // or the message's fault.
    ensures refused { (expected : Types) (header message : List ℕ) (fault : DidlFault) → IsHeader false expected.0 expected.1 header
        → HasFault expected message fault → decode_text header message ≡ refused_text fault }
    // Other bytes give no types.
    ensures bad_expected { (header message : List ℕ) → ((table : List Entry) (types : List TyRef) → IsHeader false table types header → ⊥)
        → decode_text header message ≡ bad_expected_text }
{
    one_answer();
}

/// What a `show` line prints, by the grammar of headers and the rules of decoding.
pub fn show_prints()
    // A header with nothing after it gives the types, and the text of what the message decodes to is printed,
    ensures shown { (expected : Types) (header message : List ℕ) (values : List Content) → IsHeader false expected.0 expected.1 header
        → Decodes expected message values → show_text header message ≡ shown_text expected values }
    // or the message's fault.
    ensures refused { (expected : Types) (header message : List ℕ) (fault : DidlFault) → IsHeader false expected.0 expected.1 header
        → HasFault expected message fault → show_text header message ≡ refused_text fault }
    // Other bytes give no types.
    ensures bad_expected { (header message : List ℕ) → ((table : List Entry) (types : List TyRef) → IsHeader false table types header → ⊥)
        → show_text header message ≡ bad_expected_text }
{
    one_answer();
}

/// What an `encode` line prints, by the grammars of headers and of the text of values.
pub fn encode_prints()
    // A header with nothing after it gives the types, and the message of what the text says is printed,
    ensures encoded { (expected : Types) (header text : List ℕ) (values : List Content) → IsHeader false expected.0 expected.1 header
        → Said expected.0 expected.1 values text → encode_text header text ≡ encoded_text expected values }
    // or that it says nothing of these types.
    ensures refused { (expected : Types) (header text : List ℕ) → IsHeader false expected.0 expected.1 header
        → ((values : List Content) → Said expected.0 expected.1 values text → ⊥) → encode_text header text ≡ not_text }
    // Other bytes give no types.
    ensures bad_expected { (header text : List ℕ) → ((table : List Entry) (types : List TyRef) → IsHeader false table types header → ⊥)
        → encode_text header text ≡ bad_expected_text }
{}

/// What an `upgradable` line prints, by the grammar of interface files and the rules of subtyping.
pub fn upgradable_prints()
    // A text that is a file says an interface with a service, which stands for the file, or what the
    // file lacks;
    ensures file { (file : File) (text : List ℕ) → IsFile file text → FileSays file (served (interface_in text)) }
    // another text says that it is no interface file.
    ensures no_file { (text : List ℕ) → ((file : File) → IsFile file text → ⊥) → served (interface_in text) ≡ Err NotInterface }
    // Of two interfaces with services, whether the new service is a subtype of the old one.
    ensures yes { (from to : List ℕ) (old new : Interface) → served (interface_in from) ≡ Ok old → served (interface_in to) ≡ Ok new
        → Upgrades old new → upgrade_text from to ≡ verdict_text true }
    ensures no { (from to : List ℕ) (old new : Interface) → served (interface_in from) ≡ Ok old → served (interface_in to) ≡ Ok new
        → (Upgrades old new → ⊥) → upgrade_text from to ≡ verdict_text false }
    // Else what the first of the files lacks.
    ensures bad_old { (from to : List ℕ) (lack : SomeLack) → served (interface_in from) ≡ Err lack → upgrade_text from to ≡ bad_text (codes "old") lack }
    ensures bad_new { (from to : List ℕ) (old : Interface) (lack : SomeLack) → served (interface_in from) ≡ Ok old → served (interface_in to) ≡ Err lack
        → upgrade_text from to ≡ bad_text (codes "new") lack }
{
    decided();
    texts_say();
}
