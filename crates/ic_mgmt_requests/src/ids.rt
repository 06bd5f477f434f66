// Ids of fields and cases (Candid specification, "Shorthand: Symbolic Field Ids"). That each is the
// id of its name is a law of this crate.

pub(crate) const ARG: u32 = 4_849_238;

pub(crate) const REINSTALL: u32 = 235_052_488;

pub(crate) const WASM_MODULE: u32 = 265_441_191;

pub(crate) const CONTROLLERS: u32 = 570_880_087;

pub(crate) const MODE: u32 = 1_214_305_123;

pub(crate) const CANISTER_ID: u32 = 1_313_628_723;

pub(crate) const SKIP_PRE_UPGRADE: u32 = 1_539_756_096;

pub(crate) const UPGRADE: u32 = 1_664_201_884;

pub(crate) const SETTINGS: u32 = 2_336_062_691;

pub(crate) const INSTALL: u32 = 2_375_734_555;

pub(crate) const AMOUNT: u32 = 3_573_748_184;
