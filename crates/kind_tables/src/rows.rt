ghost use Rattle.std.specs.Prelude.{◌≡◌, map, IsTrue};
ghost use Rattle.std.specs.List.{list_all};
ghost use Rattle.std.specs.Map.{lookup};
ghost use Rattle.std.specs.Str.{bytes_eq};
ghost use Rattle.dev_types.specs.Bounded.{is_name};
ghost use Rattle.kind_tables.specs.Rows.{required_row, optional_row, array_row, required_array_row, default_row, camera_rows, rows_of, row_of, parameters_of};

use crate::kinds::Kind;
use dev_types::{DataType, Name, Value};

/// What the table says of one parameter of a kind (ANARI 1.0 Specification, object parameters).
#[derive(Debug, PartialEq, Eq, Drop)]
pub struct Row {
    /// The type of the parameter's values.
    pub ty: DataType,
    /// The type of the elements, where the values are arrays.
    pub elem: Option<DataType>,
    /// Whether a picture needs the parameter.
    pub required: bool,
    /// The value that stands where the parameter is not set.
    pub default: Option<Value>,
}

impl Row {
    fn required(ty: DataType) -> Row
        ensures { result ≡ required_row ty }
    {
        Row {
            ty,
            elem: None,
            required: true,
            default: None,
        }
    }

    fn optional(ty: DataType) -> Row
        ensures { result ≡ optional_row ty }
    {
        Row {
            ty,
            elem: None,
            required: false,
            default: None,
        }
    }

    fn array(elem: DataType) -> Row
        ensures { result ≡ array_row elem }
    {
        Row {
            ty: DataType::Array1D,
            elem: Some(elem),
            required: false,
            default: None,
        }
    }

    fn required_array(elem: DataType) -> Row
        ensures { result ≡ required_array_row elem }
    {
        Row {
            ty: DataType::Array1D,
            elem: Some(elem),
            required: true,
            default: None,
        }
    }

    fn or_default(default: Value) -> Row
        ensures { result ≡ default_row default }
    {
        Row {
            ty: default.data_type(),
            elem: None,
            required: false,
            default: Some(default),
        }
    }

    fn or_scalar(default: i32) -> Row
        ensures { result ≡ default_row (Value.Scalar default) }
    {
        Row::or_default(Value::Scalar(default))
    }

    fn or_vector(default: [i32; 3]) -> Row
        ensures { result ≡ default_row (Value.ScalarVec3 default) }
    {
        Row::or_default(Value::ScalarVec3(default))
    }
}

/// 1 in units of 1/65536.
const ONE: i32 = 65536;

const IDENTITY: [i32; 12] = [ONE, 0, 0, 0, ONE, 0, 0, 0, ONE, 0, 0, 0];

/// The row of a kind's parameter; `None` exactly where the kind has no parameter of this name.
pub fn row_of(kind: Kind, name: &Name) -> Option<Row>
    ensures { result ≡ row_of kind name.now }
{
    let name = name.as_str();
    match kind {
        Kind::CameraOrthographic => orthographic_row(name),
        Kind::CameraPerspective => perspective_row(name),
        Kind::FrameDefault => frame_row(name),
        Kind::GeometrySphere => sphere_row(name),
        Kind::GeometryTriangle => triangle_row(name),
        Kind::GroupDefault => group_row(name),
        Kind::InstanceTransform => instance_row(name),
        Kind::LightDirectional => directional_row(name),
        Kind::LightPoint => point_row(name),
        Kind::MaterialMatte => matte_row(name),
        Kind::RendererDefault => renderer_row(name),
        Kind::SurfaceDefault => surface_row(name),
        Kind::WorldDefault => world_row(name),
        Kind::Array(_) => None,
    }
}

fn camera_row(name: &str) -> Option<Row>
    ensures { result ≡ lookup (bytes_eq name.now) camera_rows }
{
    match name {
        "position" => Some(Row::or_vector([0, 0, 0])),
        "direction" => Some(Row::or_vector([0, 0, -ONE])),
        "up" => Some(Row::or_vector([0, ONE, 0])),
        "aspect" => Some(Row::or_scalar(ONE)),
        _ => None,
    }
}

fn orthographic_row(name: &str) -> Option<Row>
    ensures { result ≡ lookup (bytes_eq name.now) (rows_of Kind.CameraOrthographic) }
{
    match name {
        "height" => Some(Row::or_scalar(ONE)),
        _ => camera_row(name),
    }
}

fn perspective_row(name: &str) -> Option<Row>
    ensures { result ≡ lookup (bytes_eq name.now) (rows_of Kind.CameraPerspective) }
{
    match name {
        "tanHalfFovy" => Some(Row::or_scalar(37837)),
        _ => camera_row(name),
    }
}

fn frame_row(name: &str) -> Option<Row>
    ensures { result ≡ lookup (bytes_eq name.now) (rows_of Kind.FrameDefault) }
{
    match name {
        "world" => Some(Row::required(DataType::World)),
        "camera" => Some(Row::required(DataType::Camera)),
        "renderer" => Some(Row::required(DataType::Renderer)),
        "size" => Some(Row::required(DataType::Uint32Vec2)),
        "channel.color" => Some(Row::optional(DataType::TypeName)),
        "channel.primitiveId" => Some(Row::optional(DataType::TypeName)),
        "channel.objectId" => Some(Row::optional(DataType::TypeName)),
        "channel.instanceId" => Some(Row::optional(DataType::TypeName)),
        _ => None,
    }
}

fn sphere_row(name: &str) -> Option<Row>
    ensures { result ≡ lookup (bytes_eq name.now) (rows_of Kind.GeometrySphere) }
{
    match name {
        "vertex.position" => Some(Row::required_array(DataType::ScalarVec3)),
        "vertex.radius" => Some(Row::array(DataType::Scalar)),
        "radius" => Some(Row::or_scalar(ONE)),
        _ => None,
    }
}

fn triangle_row(name: &str) -> Option<Row>
    ensures { result ≡ lookup (bytes_eq name.now) (rows_of Kind.GeometryTriangle) }
{
    match name {
        "vertex.position" => Some(Row::required_array(DataType::ScalarVec3)),
        "primitive.index" => Some(Row::array(DataType::Uint32Vec3)),
        _ => None,
    }
}

fn group_row(name: &str) -> Option<Row>
    ensures { result ≡ lookup (bytes_eq name.now) (rows_of Kind.GroupDefault) }
{
    match name {
        "surface" => Some(Row::array(DataType::Surface)),
        "light" => Some(Row::array(DataType::Light)),
        _ => None,
    }
}

fn instance_row(name: &str) -> Option<Row>
    ensures { result ≡ lookup (bytes_eq name.now) (rows_of Kind.InstanceTransform) }
{
    match name {
        "group" => Some(Row::required(DataType::Group)),
        "transform" => Some(Row::or_default(Value::ScalarMat34(IDENTITY))),
        "id" => Some(Row::optional(DataType::Uint32)),
        _ => None,
    }
}

fn directional_row(name: &str) -> Option<Row>
    ensures { result ≡ lookup (bytes_eq name.now) (rows_of Kind.LightDirectional) }
{
    match name {
        "direction" => Some(Row::or_vector([0, 0, -ONE])),
        "color" => Some(Row::or_vector([ONE, ONE, ONE])),
        "irradiance" => Some(Row::or_scalar(ONE)),
        _ => None,
    }
}

fn point_row(name: &str) -> Option<Row>
    ensures { result ≡ lookup (bytes_eq name.now) (rows_of Kind.LightPoint) }
{
    match name {
        "position" => Some(Row::or_vector([0, 0, 0])),
        "color" => Some(Row::or_vector([ONE, ONE, ONE])),
        "intensity" => Some(Row::or_scalar(ONE)),
        _ => None,
    }
}

fn matte_row(name: &str) -> Option<Row>
    ensures { result ≡ lookup (bytes_eq name.now) (rows_of Kind.MaterialMatte) }
{
    match name {
        "color" => Some(Row::or_vector([52429, 52429, 52429])),
        "opacity" => Some(Row::or_scalar(ONE)),
        _ => None,
    }
}

fn renderer_row(name: &str) -> Option<Row>
    ensures { result ≡ lookup (bytes_eq name.now) (rows_of Kind.RendererDefault) }
{
    match name {
        "background" => Some(Row::or_vector([0, 0, 0])),
        "ambientColor" => Some(Row::or_vector([ONE, ONE, ONE])),
        "ambientRadiance" => Some(Row::or_scalar(ONE)),
        _ => None,
    }
}

fn surface_row(name: &str) -> Option<Row>
    ensures { result ≡ lookup (bytes_eq name.now) (rows_of Kind.SurfaceDefault) }
{
    match name {
        "geometry" => Some(Row::required(DataType::Geometry)),
        "material" => Some(Row::required(DataType::Material)),
        "id" => Some(Row::optional(DataType::Uint32)),
        _ => None,
    }
}

fn world_row(name: &str) -> Option<Row>
    ensures { result ≡ lookup (bytes_eq name.now) (rows_of Kind.WorldDefault) }
{
    match name {
        "surface" => Some(Row::array(DataType::Surface)),
        "light" => Some(Row::array(DataType::Light)),
        "instance" => Some(Row::array(DataType::Instance)),
        _ => None,
    }
}

/// The names of a kind's parameters in the table's order; none of an array (ANARI 1.0 Specification,
/// object introspection).
#[tactic(auto, using(crate::proofs::TableFacts::parameters_are_names))]
pub fn parameters_of(kind: Kind) -> &'static [&'static str]
    ensures value { map (λ text. text.now) result.now ≡ parameters_of kind }
    ensures names { IsTrue (list_all is_name (parameters_of kind)) }
{
    match kind {
        Kind::CameraOrthographic => &["position", "direction", "up", "aspect", "height"],
        Kind::CameraPerspective => &["position", "direction", "up", "aspect", "tanHalfFovy"],
        Kind::FrameDefault => &[
            "world",
            "camera",
            "renderer",
            "size",
            "channel.color",
            "channel.primitiveId",
            "channel.objectId",
            "channel.instanceId",
        ],
        Kind::GeometrySphere => &["vertex.position", "vertex.radius", "radius"],
        Kind::GeometryTriangle => &["vertex.position", "primitive.index"],
        Kind::GroupDefault => &["surface", "light"],
        Kind::InstanceTransform => &["group", "transform", "id"],
        Kind::LightDirectional => &["direction", "color", "irradiance"],
        Kind::LightPoint => &["position", "color", "intensity"],
        Kind::MaterialMatte => &["color", "opacity"],
        Kind::RendererDefault => &["background", "ambientColor", "ambientRadiance"],
        Kind::SurfaceDefault => &["geometry", "material", "id"],
        Kind::WorldDefault => &["surface", "light", "instance"],
        Kind::Array(_) => &[],
    }
}
