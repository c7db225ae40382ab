//! Laws of reading and spelling. Each function does nothing: its contract is the law.
ghost use Rattle.mesh_tables.specs.Laws.{MeshesAreExact, MeshesCanBeSpelled};

use brep_tokens::laws::forms_are_exact;
use entry_readers::laws::fields_are_exact;

/// Each polygon and each mesh is read exactly as it is spelled, and its tokens have the form of decimals, but for the
/// word `p`.
pub fn meshes_are_exact()
    ensures { MeshesAreExact }
{
    fields_are_exact();
    forms_are_exact();
}

/// Each sound polygon or mesh whose tokens have at most 128 bytes can be spelled.
pub fn meshes_can_be_spelled()
    ensures { MeshesCanBeSpelled }
{}
