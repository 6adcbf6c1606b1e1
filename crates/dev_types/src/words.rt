ghost use Rattle.std.specs.Prelude.{◌≡◌, Some, IsTrue, IfSome};
ghost use Rattle.dev_types.specs.Bounded.{is_name};
ghost use Rattle.dev_types.specs.DataTypes.{is_object_type};
ghost use Rattle.dev_types.specs.Words.{name_of_type, type_named, word_of_type, type_worded, name_of_channel, channel_named, word_of_origin};

use crate::data_types::DataType;
use crate::handles::{Channel, Origin};

impl DataType {
    /// The type's name as it is written where values are, such as `SCALAR_VEC3` (ANARI 1.0 Specification,
    /// data types).
    #[tactic(auto, using(crate::proofs::WordFacts::type_of_name))]
    pub fn name(self) -> &'static str
        ensures value { result.now ≡ name_of_type self }
        ensures named { type_named result.now ≡ Some self }
    {
        match self {
            DataType::Int32 => "INT32",
            DataType::Uint32 => "UINT32",
            DataType::Uint32Vec2 => "UINT32_VEC2",
            DataType::Uint32Vec3 => "UINT32_VEC3",
            DataType::Uint64 => "UINT64",
            DataType::Scalar => "SCALAR",
            DataType::ScalarVec2 => "SCALAR_VEC2",
            DataType::ScalarVec3 => "SCALAR_VEC3",
            DataType::ScalarMat34 => "SCALAR_MAT34",
            DataType::ScalarBox3 => "SCALAR_BOX3",
            DataType::Ufixed8Vec4 => "UFIXED8_VEC4",
            DataType::Str => "STRING",
            DataType::TypeName => "DATA_TYPE",
            DataType::Array1D => "ARRAY1D",
            DataType::Camera => "CAMERA",
            DataType::Frame => "FRAME",
            DataType::Geometry => "GEOMETRY",
            DataType::Group => "GROUP",
            DataType::Instance => "INSTANCE",
            DataType::Light => "LIGHT",
            DataType::Material => "MATERIAL",
            DataType::Renderer => "RENDERER",
            DataType::Surface => "SURFACE",
            DataType::World => "WORLD",
        }
    }

    /// The type with this name; `None` exactly where no type has it.
    pub fn named(name: &str) -> Option<DataType>
        ensures { result ≡ type_named name.now }
    {
        match name {
            "INT32" => Some(DataType::Int32),
            "UINT32" => Some(DataType::Uint32),
            "UINT32_VEC2" => Some(DataType::Uint32Vec2),
            "UINT32_VEC3" => Some(DataType::Uint32Vec3),
            "UINT64" => Some(DataType::Uint64),
            "SCALAR" => Some(DataType::Scalar),
            "SCALAR_VEC2" => Some(DataType::ScalarVec2),
            "SCALAR_VEC3" => Some(DataType::ScalarVec3),
            "SCALAR_MAT34" => Some(DataType::ScalarMat34),
            "SCALAR_BOX3" => Some(DataType::ScalarBox3),
            "UFIXED8_VEC4" => Some(DataType::Ufixed8Vec4),
            "STRING" => Some(DataType::Str),
            "DATA_TYPE" => Some(DataType::TypeName),
            "ARRAY1D" => Some(DataType::Array1D),
            "CAMERA" => Some(DataType::Camera),
            "FRAME" => Some(DataType::Frame),
            "GEOMETRY" => Some(DataType::Geometry),
            "GROUP" => Some(DataType::Group),
            "INSTANCE" => Some(DataType::Instance),
            "LIGHT" => Some(DataType::Light),
            "MATERIAL" => Some(DataType::Material),
            "RENDERER" => Some(DataType::Renderer),
            "SURFACE" => Some(DataType::Surface),
            "WORLD" => Some(DataType::World),
            _ => None,
        }
    }

    /// The word for the type where objects are made or asked for, such as `camera`; of a type that is no
    /// object type its name.
    pub fn word(self) -> &'static str
        ensures { result.now ≡ word_of_type self }
    {
        match self {
            DataType::Array1D => "array1d",
            DataType::Camera => "camera",
            DataType::Frame => "frame",
            DataType::Geometry => "geometry",
            DataType::Group => "group",
            DataType::Instance => "instance",
            DataType::Light => "light",
            DataType::Material => "material",
            DataType::Renderer => "renderer",
            DataType::Surface => "surface",
            DataType::World => "world",
            ty => ty.name(),
        }
    }

    /// The object type with this word; `None` exactly where no object type has it.
    #[tactic(auto, using(crate::proofs::WordFacts::worded_types_are_objects))]
    pub fn worded(word: &str) -> Option<DataType>
        ensures value { result ≡ type_worded word.now }
        ensures object { IfSome result (λ ty. IsTrue (is_object_type ty)) }
    {
        match word {
            "array1d" => Some(DataType::Array1D),
            "camera" => Some(DataType::Camera),
            "frame" => Some(DataType::Frame),
            "geometry" => Some(DataType::Geometry),
            "group" => Some(DataType::Group),
            "instance" => Some(DataType::Instance),
            "light" => Some(DataType::Light),
            "material" => Some(DataType::Material),
            "renderer" => Some(DataType::Renderer),
            "surface" => Some(DataType::Surface),
            "world" => Some(DataType::World),
            _ => None,
        }
    }
}

impl Channel {
    /// The parameter of a frame that asks for the channel, such as `channel.color` (ANARI 1.0 Specification,
    /// frame).
    #[tactic(auto, using(crate::proofs::WordFacts::channel_of_name, crate::proofs::WordFacts::channels_have_names))]
    pub fn name(self) -> &'static str
        ensures value { result.now ≡ name_of_channel self }
        ensures named { channel_named result.now ≡ Some self }
        ensures bytes { IsTrue (is_name result.now) }
    {
        match self {
            Channel::Color => "channel.color",
            Channel::PrimitiveId => "channel.primitiveId",
            Channel::ObjectId => "channel.objectId",
            Channel::InstanceId => "channel.instanceId",
        }
    }

    /// The channel with this name; `None` exactly where no channel has it.
    pub fn named(name: &str) -> Option<Channel>
        ensures { result ≡ channel_named name.now }
    {
        match name {
            "channel.color" => Some(Channel::Color),
            "channel.primitiveId" => Some(Channel::PrimitiveId),
            "channel.objectId" => Some(Channel::ObjectId),
            "channel.instanceId" => Some(Channel::InstanceId),
            _ => None,
        }
    }
}

impl Origin {
    /// The word for where the memory comes from, without the application's own number.
    pub fn word(self) -> &'static str
        ensures { result.now ≡ word_of_origin self }
    {
        match self {
            Origin::Captured(_) => "captured",
            Origin::Shared(_) => "shared",
            Origin::Managed => "managed",
        }
    }
}
