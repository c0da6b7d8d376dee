// The coefficients of a whole frame, each of them finite below its channel's end.
ghost use Rattle.frame_runs.specs.Inner.{Encodable};

use sheet::Track;

#[derive(Clone, Copy)]
pub struct Coefficients<'a> {
    pub track: &'a Track,
    pub values: &'a [f32],
    pub ghost encodable: { Encodable track.now.settings values.now },
}
