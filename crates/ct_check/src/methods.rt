ghost use Rattle.std.specs.Prelude.{◌≡◌};
ghost use Rattle.ct_check.specs.Answer.{Gives};
ghost use Rattle.ct_check.specs.Rows as rows;

use crate::cause::{CheckCause, CheckError, fault};
use crate::checker::Checker;
use cd_tokens::{Piece, Token, name_of};
use ct_file::Method;
use ct_names::is_script_word;
use ct_scope::InterfaceId;
use ic_base::ReadError;
use ic_principal::Text;

fn method_place(method: &Method<'_>) -> usize {
    match method {
        Method::Text(written) => written.place,
        Method::Word(name) => name.place,
    }
}

impl<'o, 'i> Checker<'o, 'i> {
    fn method_name<'a>(&self, method: &Method<'a>) -> Result<Text, CheckError<'a>>
        ensures { Gives (λ name. name) result (rows.method_name method.now) }
    {
        match method {
            Method::Text(written) => self.text(written),
            Method::Word(name) => {
                let token = Token::Run(Piece { bytes: name.bytes });
                match name_of(self.alloc, &token) {
                    Ok(text) => Ok(text),
                    Err(ReadError::Refused) => Err(fault(name.place, CheckCause::NoSuchMethod)),
                    Err(ReadError::NoMemory) => Err(CheckError::NoMemory),
                }
            }
        }
    }

    fn function_named(&self, interface: InterfaceId, name: &Text) -> Option<cd_did::Method<'i>>
        ensures { result ≡ rows.function_named self.now interface name.now }
    {
        match self.sources.interface(interface) {
            None => None,
            Some(interface) => interface.method(name.items.as_str()),
        }
    }

    /// The name of a method of an interface, and its types.
    pub(crate) fn method<'a>(
        &self,
        interface: InterfaceId,
        method: &Method<'a>,
    ) -> Result<(Text, cd_did::Method<'i>), CheckError<'a>>
        ensures { Gives (λ found. found) result (rows.method self.now interface method.now) }
    {
        let name = self.method_name(method)?;
        let place = method_place(method);
        match self.function_named(interface, &name) {
            None => Err(fault(place, CheckCause::NoSuchMethod)),
            Some(found) => {
                if is_script_word(name.items.as_bytes()) {
                    Ok((name, found))
                } else {
                    Err(fault(place, CheckCause::BadMethodName))
                }
            }
        }
    }
}
