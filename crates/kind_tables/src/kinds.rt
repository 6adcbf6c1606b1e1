ghost use Rattle.std.specs.Prelude.{◌≡◌, [], ◌∷◌, map, IsTrue, IfSome};
ghost use Rattle.std.specs.List.{list_all};
ghost use Rattle.std.specs.Map.{lookup};
ghost use Rattle.std.specs.Str.{bytes_eq};
ghost use Rattle.dev_types.specs.Bounded.{is_name};
ghost use Rattle.kind_tables.specs.Kinds.{type_of_kind, kinds_of_type, kind_of, subtypes_of};
ghost use Rattle.kind_tables.specs.Ranks.{rank_of, names_lower};

use dev_types::{DataType, Name};

/// A kind of object: a type with a subtype, or an array with the type of its elements (ANARI 1.0
/// Specification, objects and their subtypes).
#[derive(Clone, Copy, Debug, PartialEq, Eq)]
pub enum Kind {
    CameraOrthographic,
    CameraPerspective,
    FrameDefault,
    GeometrySphere,
    GeometryTriangle,
    GroupDefault,
    InstanceTransform,
    LightDirectional,
    LightPoint,
    MaterialMatte,
    RendererDefault,
    SurfaceDefault,
    WorldDefault,
    /// An array whose elements have this type.
    Array(DataType),
}

impl Kind {
    /// The type of the objects of this kind.
    pub fn data_type(self) -> DataType
        ensures { result ≡ type_of_kind self }
    {
        match self {
            Kind::CameraOrthographic | Kind::CameraPerspective => DataType::Camera,
            Kind::FrameDefault => DataType::Frame,
            Kind::GeometrySphere | Kind::GeometryTriangle => DataType::Geometry,
            Kind::GroupDefault => DataType::Group,
            Kind::InstanceTransform => DataType::Instance,
            Kind::LightDirectional | Kind::LightPoint => DataType::Light,
            Kind::MaterialMatte => DataType::Material,
            Kind::RendererDefault => DataType::Renderer,
            Kind::SurfaceDefault => DataType::Surface,
            Kind::WorldDefault => DataType::World,
            Kind::Array(_) => DataType::Array1D,
        }
    }
}

/// The kind with this type and subtype; `None` exactly where the table has no such pair. Arrays have no
/// subtype.
#[tactic(auto, using(crate::proofs::TableFacts::kind_has_type))]
pub fn kind_of(ty: DataType, subtype: &Name) -> Option<Kind>
    ensures value { result ≡ kind_of ty subtype.now }
    ensures same_type { IfSome result (λ kind. type_of_kind kind ≡ ty) }
{
    let subtype = subtype.as_str();
    match ty {
        DataType::Camera => camera_kind(subtype),
        DataType::Frame => only_kind("default", Kind::FrameDefault, subtype),
        DataType::Geometry => geometry_kind(subtype),
        DataType::Group => only_kind("default", Kind::GroupDefault, subtype),
        DataType::Instance => only_kind("transform", Kind::InstanceTransform, subtype),
        DataType::Light => light_kind(subtype),
        DataType::Material => only_kind("matte", Kind::MaterialMatte, subtype),
        DataType::Renderer => only_kind("default", Kind::RendererDefault, subtype),
        DataType::Surface => only_kind("default", Kind::SurfaceDefault, subtype),
        DataType::World => only_kind("default", Kind::WorldDefault, subtype),
        _ => None,
    }
}

fn only_kind(text: &str, kind: Kind, subtype: &str) -> Option<Kind>
    ensures { result ≡ lookup (bytes_eq subtype.now) ((text.now, kind) ∷ []) }
{
    if subtype == text { Some(kind) } else { None }
}

fn camera_kind(subtype: &str) -> Option<Kind>
    ensures { result ≡ lookup (bytes_eq subtype.now) (kinds_of_type DataType.Camera) }
{
    match subtype {
        "orthographic" => Some(Kind::CameraOrthographic),
        "perspective" => Some(Kind::CameraPerspective),
        _ => None,
    }
}

fn geometry_kind(subtype: &str) -> Option<Kind>
    ensures { result ≡ lookup (bytes_eq subtype.now) (kinds_of_type DataType.Geometry) }
{
    match subtype {
        "sphere" => Some(Kind::GeometrySphere),
        "triangle" => Some(Kind::GeometryTriangle),
        _ => None,
    }
}

fn light_kind(subtype: &str) -> Option<Kind>
    ensures { result ≡ lookup (bytes_eq subtype.now) (kinds_of_type DataType.Light) }
{
    match subtype {
        "directional" => Some(Kind::LightDirectional),
        "point" => Some(Kind::LightPoint),
        _ => None,
    }
}

/// The subtypes of a type by rising text; none of an array or of a type that is no object type (ANARI 1.0
/// Specification, object introspection).
#[tactic(auto, using(crate::proofs::TableFacts::subtypes_are_names))]
pub fn subtypes_of(ty: DataType) -> &'static [&'static str]
    ensures value { map (λ text. text.now) result.now ≡ subtypes_of ty }
    ensures names { IsTrue (list_all is_name (subtypes_of ty)) }
{
    match ty {
        DataType::Camera => &["orthographic", "perspective"],
        DataType::Geometry => &["sphere", "triangle"],
        DataType::Instance => &["transform"],
        DataType::Light => &["directional", "point"],
        DataType::Material => &["matte"],
        DataType::Frame | DataType::Group | DataType::Renderer => &["default"],
        DataType::Surface | DataType::World => &["default"],
        _ => &[],
    }
}

/// How high a kind stands, 0 to 9: what an object's entries or elements name has a lower rank than the
/// object, so that no object reaches itself.
#[tactic(auto, using(crate::proofs::TableFacts::ranks_fall))]
pub fn rank(kind: Kind) -> u32
    ensures value { result ≡ rank_of kind }
    ensures above { IsTrue (names_lower kind) }
{
    match kind {
        Kind::CameraOrthographic | Kind::CameraPerspective => 2,
        Kind::GeometrySphere | Kind::GeometryTriangle => 2,
        Kind::LightDirectional | Kind::LightPoint => 2,
        Kind::MaterialMatte | Kind::RendererDefault => 2,
        Kind::SurfaceDefault | Kind::Array(DataType::Light) => 3,
        Kind::Array(DataType::Surface) => 4,
        Kind::GroupDefault => 5,
        Kind::InstanceTransform => 6,
        Kind::Array(DataType::Instance) => 7,
        Kind::WorldDefault => 8,
        Kind::FrameDefault => 9,
        Kind::Array(_) => 0,
    }
}
