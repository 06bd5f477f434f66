//! What holds of interface files: each function does nothing, and its contract is the law.

ghost use Rattle.std.specs.Prelude.{◌≡◌, List, ℕ, Err, IfOk};
ghost use Rattle.cd_grammar.specs.File.{File};
ghost use Rattle.cd_grammar.specs.Grammar.{IsFile};
ghost use Rattle.cd_did.specs.declared.fault.DidFault.TheVariants.{NotInterface, NoMemory};
ghost use Rattle.cd_did.specs.Answers.{Answers};
ghost use Rattle.cd_did.specs.Denotes.{InitStands};
ghost use Rattle.cd_did.specs.Interfaces.{IsWithin, IsInitWithin};
ghost use Rattle.cd_did.specs.InterfaceOf.{interface_in};

/// What a text says, by the grammar of interface files.
pub fn texts_say()
    // A text that is a file says the first fault of the file, or else an interface that stands for it;
    ensures file { (file : File) (text : List ℕ) → IsFile file text → Answers file (interface_in text) }
    // another text says that it is none.
    ensures none { (text : List ℕ) → ((file : File) → IsFile file text → ⊥) → interface_in text ≡ Err NotInterface }
    // The service of an interface, if there is one, is within its table.
    ensures within { (text : List ℕ) → IfOk (interface_in text) IsWithin }
    // The types before its `->` stand for the file's, and are within the table.
    ensures installed { (file : File) (text : List ℕ) → IsFile file text → IfOk (interface_in text) (λ interface. InitStands file interface.table interface.init) }
    ensures inside { (text : List ℕ) → IfOk (interface_in text) IsInitWithin }
    // That memory ran out is never said.
    ensures never { (text : List ℕ) → interface_in text ≡ Err NoMemory → ⊥ }
{}
