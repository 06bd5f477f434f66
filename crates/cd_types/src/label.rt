ghost use Rattle.std.specs.Prelude.{◌≡◌};
ghost use Rattle.cd_types.specs.FieldId.{field_id_of};

/// The id of the field that has this name (Candid specification, "Shorthand: Symbolic Field Ids").
pub fn field_id(name: &str) -> u32
    ensures { result ≡ field_id_of name.now }
{
    field_id_of_bytes(name.as_bytes())
}

/// The id of the field whose name has these bytes, whether they are UTF-8 or not.
pub fn field_id_of_bytes(name: &[u8]) -> u32
    ensures { result ≡ field_id_of name.now }
{
    let mut id: u32 = 0;
    for byte in name {
        id = ((id as u64 * 223 + *byte as u64) % 4_294_967_296) as u32;
    }
    id
}
