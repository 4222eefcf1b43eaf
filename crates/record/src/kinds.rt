// The kinds of bodies.
use crate::types::Body;

impl Body {
    ghost use Rattle.std.specs.Prelude.{◌≡◌, []};
    ghost use Rattle.layout.specs.Field.{FieldsFit};
    ghost use Rattle.record.specs.Layout.{kind_of, body};

    // Its kind, as byte 0 of a block has it. What a body has by its type alone is that each of its numbers has room in its bytes.
    pub fn kind(self) -> u8
        ensures is { result ≡ kind_of self }
        ensures fits { FieldsFit (body self []) }
    {
        match self {
            Body::Free => 0,
            Body::CalGray(_) => 1,
            Body::CalRgb(_) => 2,
            Body::Lab(_) => 3,
            Body::Indexed { .. } => 4,
            Body::Separation(_) => 5,
            Body::Palette => 6,
            Body::Program => 7,
            Body::DeviceN { .. } => 8,
        }
    }
}
