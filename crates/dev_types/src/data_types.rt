ghost use Rattle.std.specs.Prelude.{◌≡◌, ◌<◌, ◌≤◌, ◌↔◌, IsTrue, IsSome, IfSome};
ghost use Rattle.dev_types.specs.DataTypes.{type_number, type_numbered, byte_size, is_element_type, is_object_type};

/// The data types of values, in the order of their numbers, 1 to 24 (ANARI 1.0 Specification, data
/// types). A scalar is a signed 32-bit number in units of 1/65536.
#[derive(Clone, Copy, Debug, PartialEq, Eq)]
pub enum DataType {
    Int32 = 1,
    Uint32,
    Uint32Vec2,
    Uint32Vec3,
    Uint64,
    Scalar,
    ScalarVec2,
    ScalarVec3,
    /// Four columns of three scalars: a linear part and a translation.
    ScalarMat34,
    /// Three lower scalars, then three upper ones.
    ScalarBox3,
    Ufixed8Vec4,
    Str,
    TypeName,
    Array1D,
    Camera,
    Frame,
    Geometry,
    Group,
    Instance,
    Light,
    Material,
    Renderer,
    Surface,
    World,
}

impl DataType {
    /// All data types in the order of their numbers, so that type number n stands at index n - 1.
    pub const ALL: [DataType; 24] = [
        DataType::Int32,
        DataType::Uint32,
        DataType::Uint32Vec2,
        DataType::Uint32Vec3,
        DataType::Uint64,
        DataType::Scalar,
        DataType::ScalarVec2,
        DataType::ScalarVec3,
        DataType::ScalarMat34,
        DataType::ScalarBox3,
        DataType::Ufixed8Vec4,
        DataType::Str,
        DataType::TypeName,
        DataType::Array1D,
        DataType::Camera,
        DataType::Frame,
        DataType::Geometry,
        DataType::Group,
        DataType::Instance,
        DataType::Light,
        DataType::Material,
        DataType::Renderer,
        DataType::Surface,
        DataType::World,
    ];

    /// The number that stands for this type in the bytes of a value, 1 to 24.
    pub fn number(self) -> u32
        ensures value { result ≡ type_number self }
        ensures named { type_numbered result ≡ Some self }
    {
        self as u32
    }

    /// The type with this number; `None` exactly where the number is not 1 to 24.
    pub fn from_number(number: u32) -> Option<DataType>
        ensures value { result ≡ type_numbered number }
        ensures number { IfSome result (λ ty. type_number ty ≡ number) }
        ensures known { IsSome result ↔ (0 < number × number ≤ 24) }
    {
        match number {
            1..=24 => Some(DataType::ALL[number as usize - 1]),
            _ => None,
        }
    }

    /// Whether an array may have elements of this type.
    pub fn is_element(self) -> bool
        ensures { result ≡ is_element_type self }
    {
        !matches!(
            self,
            DataType::Str
                | DataType::TypeName
                | DataType::Array1D
                | DataType::Camera
                | DataType::Frame
                | DataType::Geometry
                | DataType::Group
                | DataType::Material
                | DataType::Renderer
                | DataType::World
        )
    }

    /// Whether the values of this type are objects: an array, a camera and so on up to a world.
    pub fn is_object(self) -> bool
        ensures { result ≡ is_object_type self }
    {
        self.number() >= DataType::Array1D.number()
    }
}

/// The number of bytes of each value of this type, and 0 for a string, whose values have 0 to 256.
pub fn size_of(ty: DataType) -> u32
    ensures { result ≡ byte_size ty }
{
    match ty {
        DataType::Int32 | DataType::Uint32 | DataType::Scalar => 4,
        DataType::Ufixed8Vec4 | DataType::TypeName => 4,
        DataType::Uint32Vec2 | DataType::Uint64 | DataType::ScalarVec2 => 8,
        DataType::Uint32Vec3 | DataType::ScalarVec3 => 12,
        DataType::ScalarMat34 => 48,
        DataType::ScalarBox3 => 24,
        DataType::Str => 0,
        _ => 8,
    }
}
