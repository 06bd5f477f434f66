ghost use Rattle.std.specs.Prelude.{◌≡◌};
ghost use Rattle.std.specs.List.{list_all};
ghost use Rattle.ct_names.specs.Printed.{is_script_byte, is_script_word, is_plain_byte, is_test_name};

/// How long the name of a method may be in a script.
const LONGEST: usize = 20_000;

fn is_script_byte(byte: u8) -> bool
    ensures { result ≡ is_script_byte byte }
{
    byte >= 0x21 && byte <= 0x7E
}

fn are_script_bytes(name: &[u8]) -> bool
    ensures { result ≡ list_all is_script_byte name.now }
{
    name.iter().all(|byte| is_script_byte(*byte))
}

/// Whether a script can have the name of a method as a word.
pub fn is_script_word(name: &[u8]) -> bool
    ensures { result ≡ is_script_word name.now }
{
    !name.is_empty() && name.len() <= LONGEST && are_script_bytes(name)
}

// Whether TAP gives the byte of a name no meaning.
fn is_plain_byte(byte: u8) -> bool
    ensures { result ≡ is_plain_byte byte }
{
    byte >= 0x20 && byte != 0x7F && byte != b'#' && byte != b'\\'
}

fn are_plain(name: &[u8]) -> bool
    ensures { result ≡ list_all is_plain_byte name.now }
{
    name.iter().all(|byte| is_plain_byte(*byte))
}

/// Whether TAP prints the name of a test as it is.
pub fn is_test_name(name: &[u8]) -> bool
    ensures { result ≡ is_test_name name.now }
{
    !name.is_empty() && are_plain(name)
}
