use ic_options::Options;

/// What the lines of a script are done under: what workers run on, the options, and the gate that workers pass.
#[derive(Drop)]
pub struct Setting<'a, R, G> {
    pub rt: &'a R,
    pub options: &'a Options,
    pub gate: &'a G,
}
